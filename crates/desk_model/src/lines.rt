// What is told of a named graph and of a job.
use crate::job::JobKind;
use graph_model::{List, Name, Tag};

/// A named graph: how many nodes it has, how many arcs of all types, its version and its node keys in ascending order, and
/// the name of the job that made it where that is told.
#[derive(Drop)]
pub struct GraphLine {
    pub name: Tag,
    pub nodes: u32,
    pub arcs: u64,
    pub version: u32,
    pub keys: List<Name>,
    pub job: Option<Tag>,
}

/// A job: its stage, whether it was asked to end, and how many batches it has done.
#[derive(Drop)]
pub struct JobLine {
    pub name: Tag,
    pub kind: JobKind,
    pub asked: bool,
    pub batches: u32,
}
