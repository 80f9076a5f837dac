//! Where the program's bytes come from and go to.
#![tactic(auto)]

mod buffered_sink;
mod files;
mod host;
mod memory_host;
mod memory_sink;
mod sink;
mod sure;

pub use buffered_sink::BufferedSink;
pub use files::{FileHost, StreamSink};
pub use host::{Host, TakeErr, take_all};
pub use memory_host::MemHost;
pub use memory_sink::MemSink;
pub use sink::{Failed, Sink, put_all};
pub use sure::{SureHost, SureSink};
