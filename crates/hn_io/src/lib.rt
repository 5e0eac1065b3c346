//! The outside as the program sees it: what it reads from, what it writes to and where its random words come
//! from, with kinds in memory that tell their content, and adapters over standard input and output that do not.
#![tactic(auto)]

mod adapters;
mod draw;
mod fault;
mod laws;
mod listed;
mod memory;
mod pcg;
mod sink;
mod source;

pub use adapters::{ReaderSource, WriterSink};
pub use draw::{Draw, Zeros, below};
pub use fault::IoFault;
pub use laws::words_join;
pub use listed::Listed;
pub use memory::{Calls, MemSink, MemSource};
pub use pcg::Pcg;
pub use sink::Sink;
pub use source::Source;
