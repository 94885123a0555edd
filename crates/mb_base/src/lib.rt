//! Bytes in and bytes out with their faults counted, and the lines, fields and numbers of a text.
//! It passes on the types of `base_types`. It depends on that crate, on std, and on `memchr`, which
//! finds the ends of lines. It promises that no byte is lost or made up on the way, that each fault
//! is seen in a count, and that a text has one reading.
#![tactic(auto)]

mod fault_plan;
mod fields;
mod lines;
mod memory_sinks;
mod memory_sources;
mod naturals;
mod process_streams;
mod streams;
mod whole;

pub use base_types::{EdgeId, OutOfMemory, Sequence, Steps, VertexId};
pub use fields::Fields;
pub use lines::next_line;
pub use memory_sinks::{MemSink, SureSink};
pub use memory_sources::{MemSource, SureSource};
pub use naturals::{natural_at_most, number};
pub use process_streams::{RealIn, RealOut};
pub use streams::{Failed, Sink, Source};
pub use whole::{ReadAll, WriteFault, read_all, write_all};
