// What a run answers between its rounds, and the gate that each part of a round goes through.

#![tactic(auto)]

/// What a run has done by a call of its `advance`: whether there is more to do.
#[derive(Clone, Copy, Debug, PartialEq, Eq)]
pub enum Turned {
    /// There may be more to do, and the next call goes on.
    More,
    /// All is done: one more call would change nothing.
    Done,
}

/// What each part of a round goes through before it starts, so that a test can hold parts up and see them at work.
///
/// No contract lets an answer depend on a gate.
pub trait Gate {
    /// Called once by each part of a round, with its number: parts count from 1.
    fn enter(&self, part: u32);
}

/// The gate that holds nobody up.
#[derive(Clone, Copy, Debug, Drop)]
pub struct OpenGate;

impl Gate for OpenGate {
    fn enter(&self, _part: u32) {}
}
