//! Tests of what no program can show: which parts of a round and of a step go through the gate, two of them at once.
//!
//! Everything else that is tried runs as data of programs. This crate has no code of its own.
#![tactic(auto)]

#[cfg(test)]
mod degrees;
#[cfg(test)]
mod gates;
