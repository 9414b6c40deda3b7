// The jobs of a user.

/// The stage that a job is in.
#[derive(Clone, Copy, Debug, PartialEq, Eq)]
pub enum JobKind {
    /// It makes a named graph.
    Making,
    /// It runs an algorithm.
    Running,
    /// It writes rows to the store, batch after batch.
    Writing,
}
