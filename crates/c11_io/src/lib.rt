//! Sources and sinks of bytes that count their faults, whole reads and writes over them, and the
//! gate that workers pass.
#![tactic(auto)]

mod gate;
pub mod laws;
mod memory_sink;
mod memory_source;
mod sink;
mod source;
mod standard;
mod sure;
mod whole;

pub use gate::{Gate, OpenGate};
pub use memory_sink::{MemSink, NoMemory};
pub use memory_source::MemSource;
pub use sink::Sink;
pub use source::{Failed, Source};
pub use standard::{StdSink, StdSource};
pub use sure::{SureSink, SureSource};
pub use whole::{ReadStop, WriteStop, read_all, write_all};

#[cfg(test)]
mod tests;
