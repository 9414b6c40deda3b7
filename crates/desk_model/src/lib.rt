//! What the desk is asked and what it answers, and what that means: one step of a machine.
//!
//! `specs/State.antt` says what the machine's state is and `specs/Valid.antt` what every machine keeps of it,
//! `specs/Step.antt` is the table of its steps, `specs/History.antt` says which histories are legal and what the entries of one
//! pass permit, `specs/Isolation.antt` what of a history bears on one user, and `specs/Script.antt` which entries perform a
//! call. Adding an event adds an equation to each function of the table and changes none. The crate has no bodies but those
//! of its laws, which do nothing and take no memory.
#![tactic(auto)]

mod asked;
mod call;
mod job;
pub mod laws;
mod lines;

pub use asked::{Asked, Event, Reply};
pub use call::Call;
pub use job::JobKind;
pub use lines::{GraphLine, JobLine};
