// What is asked of the desk, and what it answers.
use crate::lines::{GraphLine, JobLine};
use graph_making::{Built, Captured, MakeSpec};
use graph_model::{Change as GraphChange, ChangeReply, Choice, Column, List, Name, Refusal, Tag};

/// What a user asks.
#[derive(Drop)]
pub struct Asked {
    pub user: Tag,
    pub event: Event,
}

/// One event of the machine.
#[derive(Drop)]
pub enum Event {
    /// Changes the graph of the store. With an import id the first accepted change is kept with its answer, and a later
    /// one of the user with that id gives the kept answer and changes nothing.
    Change {
        import: Option<Tag>,
        change: GraphChange,
    },
    /// The values that the store's nodes have under a key, of nodes with a chosen label.
    StoreRows {
        key: Name,
        labels: Choice,
    },
    /// Begins a job that makes a named graph, and captures what it is made of. The job's name is the one that is given,
    /// else `job-` and its number.
    ProjectBegin {
        graph: Tag,
        job: Option<Tag>,
        spec: MakeSpec,
    },
    /// Keeps the graph that a job made under the job's graph name and the next version, and ends the job.
    ProjectEnd {
        job: u32,
        built: Built,
    },
    /// Ends a job that came to nothing.
    Abandon {
        job: u32,
    },
    /// Asks a job of the user to end.
    Terminate {
        job: Tag,
    },
    /// Whether the user has a graph of a name.
    Exists {
        graph: Tag,
    },
    /// The graphs of a named user, else the user's own: all, or the one of a name. Another user may be named by the
    /// administrator alone.
    List {
        graph: Option<Tag>,
        of: Option<Tag>,
    },
    /// Drops the graph of a name, of a named user, else of the user. It may be asked that there must be one. Another user
    /// may be named by the administrator alone.
    Drop {
        graph: Tag,
        must: bool,
        of: Option<Tag>,
    },
    /// The values that a named graph has under a key, of nodes with a chosen label.
    GraphRows {
        graph: Tag,
        key: Name,
        labels: Choice,
    },
    /// The user's jobs.
    Jobs,
}

/// What the desk answers.
#[derive(Drop)]
pub enum Reply {
    /// What a change of the store did.
    Changed(ChangeReply),
    /// The values of the store's nodes, by ascending id.
    Stored(Column),
    /// The number and the name of a job that makes a graph, and what it captured.
    Making { job: u32, name: Tag, from: Captured },
    /// The graph that a job made, with the job's name.
    Made(GraphLine),
    /// The job ended.
    Ended,
    /// The job of this name was asked to end.
    Asked { job: Tag },
    /// Whether there is a graph of this name.
    There { graph: Tag, found: bool },
    /// Graphs by ascending name.
    Graphs(List<GraphLine>),
    /// The values of a named graph's nodes, by ascending id.
    Rows(Column),
    /// Jobs by ascending number.
    JobLines(List<JobLine>),
    /// Why the event was refused.
    Refused(Refusal),
}
