//! The calls that are tried.
use super::streams::Streams;
use c11_commands::c11t;
use c11_io::{MemSink, MemSource, OpenGate, read_all};
use std::alloc::{AllocError, Global};
use std::thread::Threads;

/// What the program answered to a command line, and whether it left the source as it was.
#[derive(Drop)]
pub struct Answer {
    pub status: u8,
    pub printed: Vec<u8>,
    pub is_unread: bool,
}

/// What the program answers to the words of a command line, the first of which is its own name, where the source holds this text.
pub fn answer_to<R: Threads + Sync>(
    rt: &R,
    alloc: Global,
    words: &str,
    text: &str,
    streams: Streams,
) -> Result<Answer, AllocError> {
    let words = words_of(alloc, words)?;
    let mut source = MemSource::new(
        text.as_bytes().to_vec(alloc)?,
        streams.source.per_call,
        vec![in alloc; streams.source.failing]?,
    );
    let failing = vec![in alloc; streams.sink.failing]?;
    let mut sink = MemSink::new(alloc, streams.room, streams.sink.per_call, failing).map_err(
        |_| AllocError,
    )?;
    let status = c11t(
        rt,
        alloc,
        words.as_slice(),
        &mut source,
        &mut sink,
        &OpenGate,
    );
    Ok(Answer {
        status: status.number(),
        printed: sink.taken().to_vec(alloc)?,
        is_unread: gives_all(alloc, &mut source, text),
    })
}

/// Whether the source still gives the whole text.
fn gives_all(alloc: Global, source: &mut MemSource, text: &str) -> bool {
    match read_all(alloc, source, text.len()) {
        Ok(left) => left.as_slice() == text.as_bytes(),
        Err(_) => false,
    }
}

/// The words between single spaces, without the first.
fn words_of(alloc: Global, line: &str) -> Result<Vec<String>, AllocError> {
    let mut words = Vec::new(alloc);
    for word in line.split(' ').skip(1) {
        words.push(String::from_str(alloc, word)?)?;
    }
    Ok(words)
}
