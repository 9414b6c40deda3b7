//! Projections in columns: nodes with labels and values, arcs by type in rows, and the views that algorithms run on.
//!
//! `specs/Plain` says what a projection shows as plain rows, and `specs/ViewParts` the same of a view: adding a column and
//! taking a view are what the graph model defines of plain rows. Copies share columns and rows, and a view of all nodes and
//! one type shares that type's rows where they ascend. Every projection and every view keeps that it has at most 4,194,304
//! nodes and 67,108,864 arcs.
#![tactic(auto)]

mod adding;
mod arc_columns;
mod choosing;
mod columns;
mod counting;
mod csr;
mod keeping;
pub mod laws;
mod merging;
mod mirroring;
mod parts;
mod projection;
mod taking;
mod turning;
mod view;
mod viewing;

pub use csr::Csr;
pub use parts::{Parts, TypeColumns};
pub use projection::Projection;
pub use view::View;
