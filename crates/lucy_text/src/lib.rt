//! Where bytes come from and where they go. A source or a sink may fail at any call, and each
//! counts its faults, so that a caller can tell why a call failed. There are forms in memory, which
//! fail at the calls that they are told or never, and forms over the readers and writers of std.
//!
//! A shelf is where files are kept by their names, and counts its faults likewise; it has forms in
//! memory and one over the file system. A `Text` is the bytes of a name.
//!
//! It stands on nothing else. Begin with the traits of `outside` and `shelf`.
#![tactic(auto)]

mod calls;
mod files;
mod memory;
mod memory_shelf;
mod outside;
mod read;
mod real;
mod real_shelf;
mod shelf;
mod steady;
mod text;
mod unread;

pub use memory::{MemSink, MemSource};
pub use memory_shelf::{MemShelf, SteadyShelf};
pub use outside::{Failed, Sink, Source, write_all};
pub use read::{ReadError, read_up_to};
pub use real::{RealSink, RealSource};
pub use real_shelf::RealShelf;
pub use shelf::{Shelf, ShelfError};
pub use steady::{SteadySink, SteadySource};
pub use text::Text;
