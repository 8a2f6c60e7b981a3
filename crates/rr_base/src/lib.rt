//! What every crate of Chimera stands on: lists that contracts see as lists, traps, pointer words, and the outside as
//! traits.
//!
//! Its contract: the parts of a pointer word exactly, each trap exactly; what a source, sink or shelf does where it
//! tells its content, and counts of faults that never fall; `push_numbered` puts a word and a number in decimal.
//! It knows nothing of threads, C.
#![tactic(auto)]

mod counts;
mod layout;
mod list;
mod list_iter;
mod list_order;
mod mem_shelf;
mod mem_sink;
mod mem_source;
mod numbered;
mod plan;
mod pointer;
mod position;
mod shelf;
mod sink;
mod source;
mod trap;

pub use counts::{length_sum, sum};
pub use layout::{CellKind, Layout, Place, Site};
pub use list::List;
pub use mem_shelf::MemShelf;
pub use mem_sink::{MemSink, SoundSink};
pub use mem_source::{MemSource, SoundSource};
pub use numbered::push_numbered;
pub use pointer::PtrWord;
pub use position::Position;
pub use shelf::{Shelf, ShelfEnd};
pub use sink::{Sink, SinkEnd, write_all};
pub use source::{Failed, ReadEnd, Source, read_to_end};
pub use trap::Trap;

/// Bytes that contracts see as a list.
pub type Bytes = List<u8>;
