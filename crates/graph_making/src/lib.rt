//! Named graphs as jobs make them: what a job captures, what it is asked for, and what came of it.
//!
//! `specs/Making` says what comes of a capture and a specification. Contracts see captures and built graphs as plain data,
//! and every `Built` keeps that what it holds came of its capture and its specification. The body that makes a graph stands
//! in a crate beside, so that the machine doesn't stand on it. Nothing here takes memory but copies of a capture.
#![tactic(auto)]

mod built;
mod capture;

pub use built::Built;
pub use capture::{Captured, MakeSpec};
