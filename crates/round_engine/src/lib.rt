//! Rounds over a column of values: each round gives each place its next value, computed from the old column, until no
//! value falls.
//!
//! A `Kernel` says what the next value at a place is, and which places look at it. Its laws say that values never rise, that
//! a column that is nowhere greater gives values that are nowhere greater, that sound values give sound values, and that the
//! next value at a place depends on the values there and at the places that touch it alone. So when `Rounds::advance`
//! answers `Done`, the column is a fixed point of the kernel; every value is still sound where the first ones were; and no
//! value is below that of a fixed point that the first column was nowhere below (`specs/Rounds.antt`, `specs/Columns.antt`).
//! The sum of the column falls with each `More`, so that a loop over `advance` ends.
//!
//! A round computes the values of a frontier alone, cut over workers: the one fact that the engine keeps is that each place
//! outside the frontier is its own next value (`specs/Frontier.antt`). Only `Rounds::start` takes memory.
#![tactic(auto)]

mod frontier;
mod kernel;
mod marks;
mod parts;
mod rounds;

pub use kernel::Kernel;
pub use rounds::Rounds;
