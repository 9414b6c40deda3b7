// What keepers are obtained from.
ghost use Rattle.std.specs.Prelude.{◌≡◌, ℕ, ◌+◌, ◌-◌, ◌^◌, min, List, Option, option_copied, ◌≤◌, Err, IfOk};
ghost use Rattle.graph_model.specs.declared.kept.Kept.{Kept};
ghost use Rattle.gds_causes.specs.Faults.{Rose};
ghost use Rattle.store_keeper.specs.Opening.{TellsOpened, TellsTakenBack};
ghost use Rattle.store_keeper.specs.Keeping.{UnlessFault};

use crate::keeper::{KeepRefusal, Keeper};
use std::alloc::Global;

/// What keepers are obtained from, by the path of what they keep, and to what they go back.
pub trait Opener {
    type K: Keeper;

    /// What is kept under a path, where the opener tells it.
    ghost told: { Self → List ℕ → Option Kept };

    /// How many calls failed, of the opener and of the keepers that went back. It never falls, and stands still at the
    /// greatest u64.
    ghost faults: { Self → ℕ };

    /// A keeper for a path, or for none. Its count of faults is 0. Without a path it tells the empty graph and no notes,
    /// and for a path what the opener tells, where it tells something.
    ///
    /// # Errors
    /// `Fault` exactly where the count of faults rises: it could not be obtained. Or `Mem`.
    fn obtain(&mut self, alloc: Global, db: Option<&[u8]>) -> Result<Self::K, KeepRefusal>
        ensures fresh { IfOk result (λ keeper. Self.K.faults keeper ≡ 0) }
        ensures path { IfOk result (λ keeper. Self.K.path keeper ≡ option_copied db.entry) }
        ensures opened { IfOk result (λ keeper. TellsOpened (told self.old) (option_copied db.entry) (Self.K.kept keeper)) }
        ensures stays { (path : List ℕ) → told self.new path ≡ told self.old path }
        ensures fault { result ≡ Err KeepRefusal.Fault → Rose (faults self.old) (faults self.new) }
        ensures calm { UnlessFault result (faults self.new ≡ faults self.old) }
        ensures later { faults self.old ≤ faults self.new };

    /// Takes a keeper back. The opener's count grows by the keeper's. What a keeper of a path tells, the opener tells of
    /// that path from then on; a keeper without a path leaves what it tells. It takes no memory.
    fn take_back(&mut self, keeper: Self::K)
        ensures counted { faults self.new ≡ min (faults self.old + Self.K.faults keeper) (2 ^ 64 - 1) }
        ensures told { TellsTakenBack (Self.K.path keeper) (Self.K.kept keeper) (told self.old) (told self.new) };
}
