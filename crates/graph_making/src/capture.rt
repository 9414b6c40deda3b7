// What is handed out when a job begins, and what the job was asked for.
use graph_model::{Mem, Shared, TryClone};
use graph_store::Snapshot;
use projection_spec::ProjectSpec;

/// What a job that makes a graph works on, as it was when the job began. Each kind of source has a variant.
#[derive(Drop)]
pub enum Captured {
    /// The graph of the store.
    Store(Shared<Snapshot>),
}

impl TryClone for Captured {
    fn try_clone(&self) -> Result<Captured, Mem> {
        match self {
            Captured::Store(snapshot) => Ok(Captured::Store(snapshot.try_clone()?)),
        }
    }
}

/// What a job that makes a graph was asked for. Each kind of such work has a variant.
#[derive(Drop)]
pub enum MakeSpec {
    /// The entries that project the store.
    Native(ProjectSpec),
}
