//! How bytes pass between the rows and the call that is tried.

/// How a stream passes its bytes: how many a call at most, where 0 is no limit, and the number of the call that fails, where 0 is none.
#[derive(Clone, Copy)]
pub struct Stream {
    pub per_call: usize,
    pub failing: u64,
}

/// The source and the sink of a call, and how many bytes that has room for.
#[derive(Clone, Copy)]
pub struct Streams {
    pub source: Stream,
    pub sink: Stream,
    pub room: usize,
}

impl Stream {
    /// All bytes in one call, and none that fails.
    const OPEN: Stream = Stream {
        per_call: 0,
        failing: 0,
    };
}

impl Streams {
    /// Streams that pass all bytes, with room for each text of a row.
    pub const OPEN: Streams = Streams {
        source: Stream::OPEN,
        sink: Stream::OPEN,
        room: 1_000_000,
    };
}
