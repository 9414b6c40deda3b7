// Events on the lists of one user.
use graph_making::{Built, Captured, MakeSpec};
use graph_model::Tag;

/// An event of the machine that works on the lists of one user, with what was captured where a job begins.
#[derive(Drop)]
pub enum ListEvent {
    /// A job begins that makes a graph of a name.
    Begin {
        graph: Tag,
        job: Option<Tag>,
        captured: Captured,
        spec: MakeSpec,
    },
    /// A job ends with what was made for it.
    End {
        job: u32,
        built: Built,
    },
    /// A job ends for nothing.
    Abandon {
        job: u32,
    },
    /// A job is asked to end.
    Terminate {
        job: Tag,
    },
    /// Whether there is a graph of a name.
    Exists {
        graph: Tag,
    },
    /// All graphs, or the one of a name.
    List {
        graph: Option<Tag>,
    },
    /// A graph is dropped; it may be asked that there must be one.
    Drop {
        graph: Tag,
        must: bool,
    },
    /// All jobs.
    Jobs,
}
