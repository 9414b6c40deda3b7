// What a keeper keeps.
ghost use Rattle.std.specs.Prelude.{◌≡◌};
ghost use Rattle.graph_model.specs.Kept.{empty_kept};

use crate::change::ChangeReply;
use crate::graph::PropertyGraph;
use crate::list::List;
use crate::memory::{Mem, TryClone};
use crate::name::Tag;
use std::alloc::Global;

/// The answer that is kept for a user under an import id.
#[derive(Debug, Drop)]
pub struct ImportNote {
    pub user: Tag,
    pub id: Tag,
    pub answer: ChangeReply,
}

/// A graph, and the notes of imports by ascending user and id.
#[derive(Debug, Drop)]
pub struct Kept {
    pub graph: PropertyGraph,
    pub imports: List<ImportNote>,
}

impl Kept {
    /// The empty graph and no notes. It takes no memory.
    pub fn new(alloc: Global) -> Kept
        ensures { result ≡ empty_kept }
    {
        Kept {
            graph: PropertyGraph {
                nodes: List::new(alloc),
                rels: List::new(alloc),
                next_node: 0,
                next_rel: 0,
            },
            imports: List::new(alloc),
        }
    }
}

impl TryClone for ImportNote {
    fn try_clone(&self) -> Result<ImportNote, Mem> {
        Ok(ImportNote {
            user: self.user.try_clone()?,
            id: self.id.try_clone()?,
            answer: self.answer,
        })
    }
}

impl TryClone for Kept {
    fn try_clone(&self) -> Result<Kept, Mem> {
        Ok(Kept {
            graph: self.graph.try_clone()?,
            imports: self.imports.try_clone()?,
        })
    }
}
