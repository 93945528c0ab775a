//! Draws of operations.
ghost use Rattle.std.specs.Prelude.{◌≡◌, ◌<◌, Some};
ghost use Rattle.c11_events.specs.Offered.{op_cell};

use super::acts::{int, load};
use c11_events::{Op, Order};
use c11_num::RmwKind;
use rand_core::utils::NextWord;
use rand_pcg::Pcg32;

/// A number below the choices.
pub fn draw(words: &mut Pcg32, choices: u32) -> u32
    requires { 0 < choices }
    ensures { result < choices }
{
    words.next_word() % choices
}

pub fn drawn_order(words: &mut Pcg32) -> Order {
    match draw(words, 6) {
        0 => Order::Relaxed,
        1 => Order::Consume,
        2 => Order::Acquire,
        3 => Order::Release,
        4 => Order::AcqRel,
        _ => Order::SeqCst,
    }
}

/// A number from 0 to 2.
pub fn drawn_value(words: &mut Pcg32) -> i32 {
    match draw(words, 3) {
        0 => 0,
        1 => 1,
        _ => 2,
    }
}

pub fn drawn_kind(words: &mut Pcg32) -> RmwKind {
    match draw(words, 6) {
        0 => RmwKind::Add,
        1 => RmwKind::Sub,
        2 => RmwKind::And,
        3 => RmwKind::Or,
        4 => RmwKind::Xor,
        _ => RmwKind::Exchange,
    }
}

/// A load, a read-modify-write or a compare-exchange, weak or not, of the cell.
pub fn drawn_read(words: &mut Pcg32, cell: u32) -> Op
    ensures { op_cell result ≡ Some cell }
{
    let order = drawn_order(words);
    match draw(words, 4) {
        0 | 1 => load(cell, order),
        2 => Op::Rmw {
            cell,
            order,
            kind: drawn_kind(words),
            operand: int(drawn_value(words)),
        },
        _ => Op::CompareExchange {
            cell,
            success: order,
            failure: drawn_order(words),
            weak: draw(words, 2) == 1,
            expected: int(drawn_value(words)),
            desired: int(drawn_value(words)),
        },
    }
}
