//! The desk: the machine that answers every event.
//!
//! `Desk::apply` is one step of the machine (`desk_model`'s table), with the mark that its reply shows, and what the keeper
//! tells is the desk's graph after every event: both are kept in the type. A change takes all its memory before the keeper
//! is touched. The lists of one user are `user_lists`', the graph is the store's.
#![tactic(auto)]

mod capturing;
mod changing;
mod desk;
mod importing;
mod replies;
mod rows;

pub use desk::Desk;
pub use desk_model::{Asked, Call, Event, GraphLine, JobKind, JobLine, Reply};
pub use graph_making::{Built, Captured, MakeSpec};
