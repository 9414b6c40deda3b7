//! Graphs are made: what a job asks for of what it captured.
//!
//! `Built::make`, of the trait `Make`, gives exactly what `graph_making`'s definition says comes of a capture and a
//! specification, for every number of workers. It runs away from the machine that hands captures out and takes built graphs,
//! so it takes no part in the machine's steps. It takes the memory of the graph, and of the workers' tables.
#![tactic(auto)]

mod make;

pub use make::Make;
