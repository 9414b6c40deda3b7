//! The commands, from bytes to bytes.
//!
//! `run` does what words ask for: today `once degree`. `shell` answers lines of JSON on a desk: `specs/Serving.antt` says
//! what that comes to, by the items of the text that was read and the scripts of its calls. Both read within a budget, take
//! at least one byte a turn, and hold what the definitions need: a piece, the front of a line, an answer.
#![tactic(auto)]

mod ahead;
mod asking;
mod command;
mod degrees;
mod ends;
mod input;
pub mod laws;
mod once;
mod performing;
mod serving;

pub use asking::shell;
pub use command::run;
pub use ends::End;
