//! Files in, bytes out. A program that is generic over `Shelf` and `Sink` can be proved exact over the devices
//! in memory, and the same program runs over the real folder and standard output, which tell nothing of their
//! content but count each failure.
#![tactic(auto)]

mod counts;
mod files;
mod folder_shelf;
mod memory_shelf;
mod memory_sink;
mod shelf;
mod sink;
mod std_sink;
mod steady_shelf;
mod steady_sink;

pub use folder_shelf::{FolderShelf, Unread};
pub use memory_shelf::MemoryShelf;
pub use memory_sink::MemorySink;
pub use shelf::{FetchFault, Shelf};
pub use sink::{PutFailed, Sink, write_out};
pub use std_sink::StdSink;
pub use steady_shelf::SteadyShelf;
pub use steady_sink::SteadySink;
