//! Texts that are put piece by piece, without memory: counted, or gathered and handed on to a sink.
//!
//! `specs/Told` says what a sink of texts tells, and what putting a text does to it. One walk that puts a text serves both
//! sinks: `LengthSink` counts its bytes, `PieceSink` gathers them in a piece of fixed size in place and hands it on whenever it is
//! full, so that a text of many small parts costs few writes.
#![tactic(auto)]

mod length_sink;
mod part;
mod piece_sink;
mod text_sink;

pub use length_sink::LengthSink;
pub use part::{Part, put_parts};
pub use piece_sink::PieceSink;
pub use text_sink::TextSink;
