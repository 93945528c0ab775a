/// What each worker calls before each of its turns, with its own number and that of the turn.
///
/// The call returns and answers nothing. An implementation may spin, a number of times that it
/// states, so that a test can hold a worker until others have come as far.
pub trait Gate {
    fn pass(&self, worker: u32, turn: u64);
}

/// A gate that lets every worker through at once.
#[derive(Clone, Copy, Debug, Default)]
pub struct OpenGate;

impl Gate for OpenGate {
    fn pass(&self, _worker: u32, _turn: u64) {}
}
