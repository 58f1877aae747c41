//! Sources and sinks of bytes that count their faults.
//!
//! A call answers [`Failed`] only where the count of its source or sink rose in that call, so code over a [`Source`] or a
//! [`Sink`] can't give up by itself. What a source has left and what a sink has taken is told where the object knows it:
//! [`MemSource`] and [`MemSink`] do, and [`StdSource`] and [`StdSink`] tell what their reader and writer tell, which is
//! nothing for a file, a pipe or a terminal.
#![tactic(auto)]

mod failing_calls;
mod fault;
mod mem_sink;
mod mem_source;
mod sink;
mod source;
mod std_sink;
mod std_source;
#[cfg(test)]
mod tests;

pub use failing_calls::FailingCalls;
pub use fault::{Failed, ReadFault};
pub use mem_sink::MemSink;
pub use mem_source::MemSource;
pub use sink::{Sink, write_whole};
pub use source::{Source, read_whole};
pub use std_sink::StdSink;
pub use std_source::StdSource;
