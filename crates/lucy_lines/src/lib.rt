//! The lines of a run: of its input, a name and a value each, judged one by one as the bytes of a source come, and read
//! stream by stream; and of its output, written to a sink, at once or block by block.
//!
//! It stands on `lucy_text` for sources, sinks and names, on `lucy_host` for types and lists of values, on `lucy_word` for
//! words, the limits and want of memory, and on the kit's `bstr`, `memchr` and `itoa`. It has three parts, with definitions in
//! the order of `specs/Lib.antt`. An input cut into lines: begin with `InputReader` in `reader.rt`; lines of values in print
//! are in `written.rt`. A whole input, up to its end or to why it stops before it, at once or in pieces: begin with
//! `read_feed` in `feeds.rt` and `FeedReader` in `feed_reader.rt`. The output lines, by instant, and within an instant in the
//! order of the outputs: begin with `write_outputs` in `write.rt` and `OutputWriter` in `writer.rt`.
#![tactic(auto)]

mod block;
mod buffer;
mod cut_laws;
mod error;
mod feed_laws;
mod feed_reader;
mod feeds;
mod field;
mod front;
mod input;
mod instant;
mod kind;
mod output;
mod output_laws;
mod reader;
mod value;
mod walk;
mod write;
mod writer;
mod written;

pub use cut_laws::{cut_in_pieces, items_in_turn, judged_first, one_cut, some_cut};
pub use error::OutputError;
pub use feed_laws::{one_feed, values_in_turn};
pub use feed_reader::FeedReader;
pub use feeds::{Feed, empty_lists, read_feed};
pub use input::InputSpec;
pub use output::OutputSpec;
pub use output_laws::{block_by_block, fronts_suffice, instant_by_instant, texts_grow};
pub use reader::{InputReader, Line, TextFault};
pub use write::write_outputs;
pub use writer::OutputWriter;
pub use written::{ValueLines, value_line};
