//! A line of JSON as a user's call, and a reply as the text of an answer, each exactly.
//!
//! `specs/Answers` says what the text of a reply is. `specs/Lines` says what a line asks and which lines are whole, over the
//! table of procedures in `specs/Calls`, to which each later procedure adds a case; what values of JSON mean is left to
//! `json_forms`. A call that is read is well formed: labels and keys are distinct, and ends name nodes of the call.
//! Memory is taken for a line's JSON, which is read once, for the call and for the text of an answer. Whether ids live, and
//! the events that perform a call, are left to the desk; reading lines from a source and writing answers to the shell.
#![tactic(auto)]

mod answer;
mod calls;
mod fields;
mod item;
pub mod laws;
mod line;
mod lines;
mod procedure;
mod refused;
mod status;
mod words;

pub use answer::{answer_length, answer_write, line_write};
pub use line::{is_blank, line_call};
pub use status::status_of;
