//! What is kept for one user of the desk.
//!
//! `UserLists` is seen as the lists of the machine's state (`desk_model`). An event on named graphs and jobs is answered by
//! `UserLists::apply`, and its reply and the new lists are exactly the step of the machine's table (`specs/Steps`);
//! `Users::apply` makes it on the lists of one user, which it takes out and puts back, and leaves those of all others. Ending a
//! job for nothing, asking one to end, and ending one that was asked to end take no memory. Answers of imports are kept and
//! forgotten one by one; when is left to the desk.
#![tactic(auto)]

mod event;
mod graphs;
mod job;
pub mod laws;
mod lists;
mod users;

pub use event::ListEvent;
pub use job::Job;
pub use lists::UserLists;
pub use users::Users;
