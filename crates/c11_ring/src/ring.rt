ghost use Rattle.std.specs.Prelude.{◌≡◌, ◌++◌, ◌≤◌, ◌<◌, OnOk, IfOk, string_bytes};
ghost use Rattle.c11_ring.specs.Ring.{places, place_of, value_of, order_word, head_text, sent_text, taken_text, producer_text, consumer_text, main_text, ring_bytes};

use c11_num::NoMemory;
use std::alloc::{AllocError, Global};

/// The text of the ring program of this number, with `size` packets, from 1 to 200.
///
/// The only error is that memory ran out.
pub fn make_ring(alloc: Global, number: u64, size: u32) -> Result<Vec<u8>, NoMemory>
    requires some { 1 ≤ size }
    requires small { size ≤ 200 }
    ensures { IfOk result (λ text. text.items ≡ ring_bytes number size) }
{
    let mut text = Vec::new(alloc);
    push_text(&mut text, &head_text(alloc, number)?)?;
    push_producer(alloc, &mut text, number, size)?;
    push_consumer(alloc, &mut text, number, size)?;
    push_text(&mut text, &main_text(alloc, number, size)?)?;
    Ok(text)
}

// The places of the ring.
fn places(number: u64) -> u64
    ensures { result ≡ places number }
{
    1 + number / 4 % 8
}

fn place_of(number: u64, packet: u32) -> u64
    ensures { result ≡ place_of number packet }
{
    u64::from(packet) % places(number)
}

fn value_of(number: u64, packet: u32) -> u64
    requires { packet < 200 }
    ensures { result ≡ value_of number packet }
{
    (number % 1000 + u64::from(packet)) % 1000
}

// The memory order of a store.
fn order_word(release: bool) -> &'static str
    ensures { result.now ≡ order_word release }
{
    if release {
        "memory_order_release"
    } else {
        "memory_order_relaxed"
    }
}

// The headers and the objects.
fn head_text(alloc: Global, number: u64) -> Result<String, AllocError>
    ensures { IfOk result (λ text. string_bytes text ≡ head_text number) }
{
    let places = places(number);
    format!(in alloc;
        "#include <stdatomic.h>\n#include <threads.h>\n#include <assert.h>\n#include <stdio.h>\nint ring[{places}];\natomic_int head;\natomic_int tail;\n"
    )
}

// What the producer does for a packet.
fn sent_text(alloc: Global, number: u64, packet: u32) -> Result<String, AllocError>
    requires { packet < 200 }
    ensures { IfOk result (λ text. string_bytes text ≡ sent_text number packet) }
{
    let places = places(number);
    let place = place_of(number, packet);
    let value = value_of(number, packet);
    let next = packet + 1;
    let order = order_word(number % 2 == 0);
    format!(in alloc;
        "while ({packet} - atomic_load_explicit(&tail, memory_order_acquire) >= {places});\nring[{place}] = {value};\natomic_store_explicit(&head, {next}, {order});\n"
    )
}

// What the consumer does for a packet.
fn taken_text(alloc: Global, number: u64, packet: u32) -> Result<String, AllocError>
    requires { packet < 200 }
    ensures { IfOk result (λ text. string_bytes text ≡ taken_text number packet) }
{
    let place = place_of(number, packet);
    let value = value_of(number, packet);
    let next = packet + 1;
    let order = order_word(number / 2 % 2 == 0);
    format!(in alloc;
        "while (atomic_load_explicit(&head, memory_order_acquire) <= {packet});\nassert(ring[{place}] == {value});\natomic_store_explicit(&tail, {next}, {order});\n"
    )
}

fn main_text(alloc: Global, number: u64, size: u32) -> Result<String, AllocError>
    requires { 1 ≤ size }
    ensures { IfOk result (λ text. string_bytes text ≡ main_text number size) }
{
    let place = place_of(number, size - 1);
    format!(in alloc;
        "int main(void) {{\nthrd_t p, c;\nthrd_create(&p, producer, NULL);\nthrd_create(&c, consumer, NULL);\nthrd_join(p, NULL);\nthrd_join(c, NULL);\nprintf(\"%d\\n\", ring[{place}]);\nreturn 0;\n}}\n"
    )
}

fn push_text(text: &mut Vec<u8>, part: &String) -> Result<(), AllocError>
    ensures { OnOk result (text.new.items ≡ text.old.items ++ string_bytes part.now) }
{
    text.extend_from_slice(part.as_bytes())
}

#[tactic(auto, using(crate::proofs::Packets::packets_more))]
fn push_producer(
    alloc: Global,
    text: &mut Vec<u8>,
    number: u64,
    size: u32,
) -> Result<(), AllocError>
    requires { size ≤ 200 }
    ensures { OnOk result (text.new.items ≡ text.old.items ++ producer_text number size) }
{
    text.extend_from_slice(b"int producer(void *a) {\n")?;
    for packet in 0..size {
        push_text(text, &sent_text(alloc, number, packet)?)?;
    }
    text.extend_from_slice(b"return 0;\n}\n")?;
    Ok(())
}

#[tactic(auto, using(crate::proofs::Packets::packets_more))]
fn push_consumer(
    alloc: Global,
    text: &mut Vec<u8>,
    number: u64,
    size: u32,
) -> Result<(), AllocError>
    requires { size ≤ 200 }
    ensures { OnOk result (text.new.items ≡ text.old.items ++ consumer_text number size) }
{
    text.extend_from_slice(b"int consumer(void *a) {\n")?;
    for packet in 0..size {
        push_text(text, &taken_text(alloc, number, packet)?)?;
    }
    text.extend_from_slice(b"return 0;\n}\n")?;
    Ok(())
}
