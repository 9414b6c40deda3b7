//! Degrees: how many arcs of a view lead from each of its nodes, or the sum of their weights.
//!
//! A node without arcs has degree 0, an arc from a node to itself counts once, and parallel arcs count each. Weights lie from
//! 0 to 4,294,967,295: a view with another is refused for its first such arc, by source, target, type and the arc's order in
//! its type. `DegreeRun` treats 65,536 nodes a step, so that others can look on between two steps, and cuts them over workers;
//! `specs/Runs` says what a step does, and the definition of degrees stands with that of views. All memory but the ids of the
//! answer is taken by `start`. Time is one look at each row, and with weights at each weight twice (measured, not proved).
#![tactic(auto)]

mod counting;
mod run;
mod weights;

pub use run::DegreeRun;
pub use weights::weight_refusal;
