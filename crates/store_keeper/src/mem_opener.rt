// An opener in memory that fails where it is told to.
ghost use Rattle.std.specs.Prelude.{◌≡◌, ℕ, ◌+◌, ◌-◌, ◌^◌, min, List, Some, Err, option_copied, ◌≤◌, IfOk};
ghost use Rattle.graph_model.specs.Kept.{IsValidKept};
ghost use Rattle.gds_causes.specs.Faults.{Rose};
ghost use Rattle.store_keeper.specs.Keeping.{UnlessFault};
ghost use Rattle.store_keeper.specs.MemKeeper.{is_fault};
ghost use Rattle.store_keeper.specs.MemOpener.{opening_fails, keeper_given, kept_under, opener_after, opener_with};
ghost use Rattle.store_keeper.specs.Opening.{TellsOpened, TellsTakenBack};

use crate::held::Held;
use crate::keeper::KeepRefusal;
use crate::mem_keeper::MemKeeper;
use crate::opener::Opener;
use graph_model::{Kept, List, Mem};
use std::alloc::Global;
use std::marker::Model;
use std::mem;

/// Gives keepers in memory. It tells one graph with notes for every path: what was given, and then what the last keeper of
/// a path had that was taken back. Each keeper of a path gets a copy. Openings are numbered from 1, and chosen ones fail; of
/// the first keeper that is given chosen commits fail, and of later ones none.
///
/// The number of an opening and the count of faults stand still at the greatest u64.
#[derive(Drop)]
pub struct MemOpener {
    held: Held,
    opens: Vec<u64>,
    commits: Vec<u64>,
    calls: u64,
    faults: u64,
}

impl Model for MemOpener {
    ghost use Rattle.store_keeper.specs.MemOpener.{OpenerState};

    ghost Value = { OpenerState };

    ghost view = { λ opener. record {
      kept = opener.held;
      opens = opener.opens.items;
      commits = opener.commits.items;
      calls = opener.calls;
      faults = opener.faults;
    } };
}

impl MemOpener {
    /// An opener that tells what is given of every path, whose openings of these numbers fail, and of whose first keeper the
    /// commits of these numbers fail. It takes no memory.
    pub fn new(kept: Kept, opens: Vec<u64>, commits: Vec<u64>) -> MemOpener
        requires { IsValidKept kept }
        ensures { result ≡ record { kept = kept; opens = opens.items; commits = commits.items; calls = 0; faults = 0 } }
    {
        MemOpener {
            held: Held::new(kept),
            opens,
            commits,
            calls: 0,
            faults: 0,
        }
    }

    /// How many openings failed, and how many commits of the keepers that were taken back.
    pub fn faults(&self) -> u64
        ensures { result ≡ self.now.faults }
    {
        self.faults
    }

    // What a keeper for a path begins with.
    fn kept_for(&self, alloc: Global, db: Option<&[u8]>) -> Result<Kept, Mem>
        ensures valid { IfOk result IsValidKept }
        ensures ok { IfOk result (λ kept. kept ≡ kept_under (option_copied db.entry) self.now.kept) }
    {
        match db {
            Some(_path) => self.held.copy(alloc),
            None => Ok(Kept::new(alloc)),
        }
    }
}

impl Opener for MemOpener {
    type K = MemKeeper;

    ghost told = { λ opener path. Some opener.kept };

    ghost faults = { λ opener. opener.faults };

    /// A keeper in memory.
    ///
    /// # Errors
    /// `Fault` exactly where the number of this opening is listed, or `Mem`.
    fn obtain(&mut self, alloc: Global, db: Option<&[u8]>) -> Result<MemKeeper, KeepRefusal>
        ensures given { IfOk result (λ keeper. keeper ≡ keeper_given self.old (option_copied db.entry)) }
        ensures next { self.new ≡ opener_after self.old result }
        ensures listed { is_fault result ≡ opening_fails self.old }
        ensures fault { result ≡ Err KeepRefusal.Fault → Rose self.old.faults self.new.faults }
        ensures later { self.old.faults ≤ self.new.faults }
    {
        self.calls = self.calls.saturating_add(1);
        if self.opens.contains(&self.calls) {
            self.faults = self.faults.saturating_add(1);
            return Err(KeepRefusal::Fault);
        }
        let path = copy_of(alloc, db)?;
        let kept = self.kept_for(alloc, db)?;
        let fails = mem::replace(&mut self.commits, Vec::new(alloc));
        Ok(MemKeeper::obtained(kept, path, fails))
    }

    /// Takes a keeper back, and keeps on what one of a path kept.
    fn take_back(&mut self, keeper: MemKeeper)
        ensures next { self.new ≡ opener_with self.old keeper keeper.path }
    {
        self.faults = self.faults.saturating_add(keeper.faults());
        if keeper.path.is_some() {
            self.held = keeper.held;
        }
    }
}

// A copy of a path.
fn copy_of(alloc: Global, db: Option<&[u8]>) -> Result<Option<List<u8>>, Mem>
    ensures { IfOk result (λ path. path ≡ option_copied db.entry) }
{
    match db {
        Some(path) => Ok(Some(List::from_vec(path.to_vec(alloc)?))),
        None => Ok(None),
    }
}
