// A keeper in memory that fails where it is told to.
ghost use Rattle.std.specs.Prelude.{◌≡◌, Some, None, Err, option_copied, ◌≤◌, IfOk, OnErr};
ghost use Rattle.graph_model.specs.Change.{IsWellFormedChange, refused_change};
ghost use Rattle.graph_model.specs.Kept.{IsValidKept, NoteFits};
ghost use Rattle.gds_causes.specs.Faults.{Rose};
ghost use Rattle.store_keeper.specs.Keeping.{IsTold, UnlessFault};
ghost use Rattle.store_keeper.specs.MemKeeper.{commit_fails, is_fault, keeper_after};

use crate::held::Held;
use crate::keeper::{KeepRefusal, Keeper};
use graph_model::{Change, ImportNote, Kept, List};
use std::alloc::Global;
use std::marker::Model;

/// Keeps a graph and the notes of imports in memory. Commits are numbered from 1, and chosen ones fail.
///
/// The number of a commit and the count of faults stand still at the greatest u64.
#[derive(Drop)]
pub struct MemKeeper {
    pub(crate) held: Held,
    pub(crate) path: Option<List<u8>>,
    fails: Vec<u64>,
    commits: u64,
    faults: u64,
}

impl Model for MemKeeper {
    ghost use Rattle.store_keeper.specs.MemKeeper.{KeeperState};

    ghost Value = { KeeperState };

    ghost view = { λ keeper. record {
      kept = keeper.held;
      path = keeper.path;
      fails = keeper.fails.items;
      commits = keeper.commits;
      faults = keeper.faults;
    } };
}

impl MemKeeper {
    /// A keeper of what is given, whose commits of these numbers fail. It was obtained for no path. It takes no memory: the
    /// first commit takes some for a store of the graph.
    pub fn new(kept: Kept, fails: Vec<u64>) -> MemKeeper
        requires { IsValidKept kept }
        ensures { result ≡ record { kept = kept; path = None; fails = fails.items; commits = 0; faults = 0 } }
    {
        MemKeeper::obtained(kept, None, fails)
    }

    /// A keeper of what is given that was obtained for a path, or for none.
    pub(crate) fn obtained(kept: Kept, path: Option<List<u8>>, fails: Vec<u64>) -> MemKeeper
        requires { IsValidKept kept }
        ensures { result ≡ record { kept = kept; path = path; fails = fails.items; commits = 0; faults = 0 } }
    {
        MemKeeper {
            held: Held::new(kept),
            path,
            fails,
            commits: 0,
            faults: 0,
        }
    }

    /// How many commits failed.
    pub fn faults(&self) -> u64
        ensures { result ≡ self.now.faults }
    {
        self.faults
    }
}

impl Keeper for MemKeeper {
    ghost kept = { λ keeper. Some keeper.kept };

    ghost path = { λ keeper. keeper.path };

    ghost faults = { λ keeper. keeper.faults };

    /// A copy of what is kept. It never fails but for want of memory.
    ///
    /// # Errors
    /// `Mem`.
    fn load(&mut self, alloc: Global) -> Result<Kept, KeepRefusal>
        ensures valid { IfOk result IsValidKept }
        ensures ok { IfOk result (IsTold (Some self.old.kept)) }
        ensures next { self.new ≡ self.old }
        ensures cause { OnErr result (result ≡ Err KeepRefusal.Mem) }
        ensures fault { result ≡ Err KeepRefusal.Fault → Rose self.old.faults self.new.faults }
    {
        Ok(self.held.copy(alloc)?)
    }

    /// Makes the change on the graph, and adds the note.
    ///
    /// # Errors
    /// `Fault` exactly where the number of this commit is listed, or `Mem`.
    fn commit(
        &mut self,
        alloc: Global,
        change: &Change,
        note: Option<&ImportNote>,
    ) -> Result<(), KeepRefusal>
        requires formed { IsWellFormedChange change.now }
        requires fits { (refused_change self.old.kept.graph change.now ≡ None) × NoteFits (option_copied note) self.old.kept.imports }
        ensures next { self.new ≡ keeper_after self.old change.now (option_copied note.entry) result }
        ensures listed { is_fault result ≡ commit_fails self.old }
        ensures fault { result ≡ Err KeepRefusal.Fault → Rose self.old.faults self.new.faults }
        ensures later { self.old.faults ≤ self.new.faults }
    {
        self.commits = self.commits.saturating_add(1);
        if self.fails.contains(&self.commits) {
            self.faults = self.faults.saturating_add(1);
            return Err(KeepRefusal::Fault);
        }
        self.held.change(alloc, change, note)?;
        Ok(())
    }
}
