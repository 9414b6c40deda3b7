// What keeps a graph, its changes, and the answers of imports.
ghost use Rattle.std.specs.Prelude.{◌≡◌, ℕ, List, Option, option_copied, ◌≤◌, Err, IfOk, OnOk, OnErr};
ghost use Rattle.graph_model.specs.declared.kept.Kept.{Kept};
ghost use Rattle.graph_model.specs.Kept.{IsValidKept};
ghost use Rattle.graph_model.specs.Change.{IsWellFormedChange};
ghost use Rattle.gds_causes.specs.Faults.{Rose};
ghost use Rattle.store_keeper.specs.Keeping.{IsTold, FitsTold, UnlessFault, told_after};

use graph_model::{Change, ImportNote, Kept, Mem};
use std::alloc::Global;

/// Why a keeper didn't do what it was asked.
#[derive(Clone, Copy, Debug, PartialEq, Eq)]
pub enum KeepRefusal {
    /// Obtaining, loading or committing failed. The count of faults rose in that call.
    Fault,
    /// No memory was to be had.
    Mem,
}

impl From<Mem> for KeepRefusal {
    ghost use Rattle.store_keeper.specs.declared.keeper.KeepRefusal.TheVariants.{Mem};

    ghost from_gives = { λ _ why. why ≡ Mem };

    fn from(_mem: Mem) -> KeepRefusal {
        KeepRefusal::Mem
    }
}

/// What keeps a graph, its changes, and the answers of imports.
pub trait Keeper: Drop {
    /// What is kept, where the keeper tells it.
    ghost kept: { Self → Option Kept };

    /// The path that the keeper was obtained for, or none. No call changes it.
    ghost path: { Self → Option (List ℕ) };

    /// How many calls failed. It never falls, and stands still at the greatest u64.
    ghost faults: { Self → ℕ };

    /// What is kept.
    ///
    /// # Errors
    /// `Fault` exactly where the count of faults rises: it could not be loaded. Or `Mem`.
    fn load(&mut self, alloc: Global) -> Result<Kept, KeepRefusal>
        ensures valid { IfOk result IsValidKept }
        ensures ok { IfOk result (IsTold (kept self.old)) }
        ensures stays { kept self.new ≡ kept self.old }
        ensures path { path self.new ≡ path self.old }
        ensures fault { result ≡ Err KeepRefusal.Fault → Rose (faults self.old) (faults self.new) }
        ensures calm { UnlessFault result (faults self.new ≡ faults self.old) }
        ensures later { faults self.old ≤ faults self.new };

    /// Keeps a change that fits the graph, and with it, in one commit, the note of an import whose id isn't kept yet and
    /// whose user has fewer than 65,536 notes.
    ///
    /// # Errors
    /// `Fault` exactly where the count of faults rises: it could not be kept. Or `Mem`. Then all that is kept stays as it
    /// was.
    fn commit(
        &mut self,
        alloc: Global,
        change: &Change,
        note: Option<&ImportNote>,
    ) -> Result<(), KeepRefusal>
        requires formed { IsWellFormedChange change.now }
        requires fits { FitsTold (kept self.old) change.now (option_copied note) }
        ensures ok { OnOk result (kept self.new ≡ told_after (kept self.old) change.now (option_copied note.entry)) }
        ensures err { OnErr result (kept self.new ≡ kept self.old) }
        ensures path { path self.new ≡ path self.old }
        ensures fault { result ≡ Err KeepRefusal.Fault → Rose (faults self.old) (faults self.new) }
        ensures calm { UnlessFault result (faults self.new ≡ faults self.old) }
        ensures later { faults self.old ≤ faults self.new };
}
