//! Keeping the changes of a property graph, and with them the answers of imports.
//!
//! `Keeper` says what loading and committing do to what is told, and that a fault is answered exactly where the keeper's
//! count of faults rose (`specs/Keeping.antt`); `Opener` is what keepers are obtained from and go back to
//! (`specs/Opening.antt`). `MemKeeper` and `MemOpener` are in memory and fail where they are told to; their contracts give
//! each answer and each next state exactly. A commit takes memory for the change and its note, the first one also for a
//! store, and loading for all that is kept.
#![tactic(auto)]

mod held;
mod keeper;
mod mem_keeper;
mod mem_opener;
mod notes;
mod opener;
mod reading;

pub use keeper::{KeepRefusal, Keeper};
pub use mem_keeper::MemKeeper;
pub use mem_opener::MemOpener;
pub use opener::Opener;
