// The keepers of desks.
ghost use Rattle.std.specs.Prelude.{IfOk};
ghost use Rattle.graph_model.specs.Kept.{IsValidKept};

use crate::event::tag;
use crate::session::{Session, start_on};
use crate::stop::Stop;
use graph_model::{Kept, Tag};
use std::alloc::Global;
use store_keeper::{Keeper, MemKeeper, MemOpener, Opener};

// What is kept once a node with a value under `d` is made.
fn kept_with(alloc: Global, value: &str) -> Result<Kept, Stop>
    ensures { IfOk result IsValidKept }
{
    let keeper = MemKeeper::new(Kept::new(alloc), Vec::new(alloc));
    let mut session = start_on(alloc, keeper, None)?;
    session.answer(alloc, tag(alloc, "u")?, "make", value)?;
    let mut keeper = session.keeper();
    match keeper.load(alloc) {
        Ok(kept) => Ok(kept),
        Err(_) => Err(Stop::Mem),
    }
}

/// A session on a desk over nothing, with this administrator or none, whose keeper fails at commits of these numbers.
pub(crate) fn over_nothing(
    alloc: Global,
    admin: Option<Tag>,
    fails: Vec<u64>,
) -> Result<Session<MemKeeper>, Stop> {
    start_on(alloc, MemKeeper::new(Kept::new(alloc), fails), admin)
}

/// A session on a desk over a node with a value under `d`, whose keeper fails at commits of these numbers.
pub(crate) fn over_node(
    alloc: Global,
    value: &str,
    fails: Vec<u64>,
) -> Result<Session<MemKeeper>, Stop> {
    let kept = kept_with(alloc, value)?;
    start_on(alloc, MemKeeper::new(kept, fails), None)
}

/// The same, whose keeper comes from an opener.
pub(crate) fn opened(
    alloc: Global,
    value: &str,
    fails: Vec<u64>,
) -> Result<Session<MemKeeper>, Stop> {
    let kept = kept_with(alloc, value)?;
    let mut opener = MemOpener::new(kept, Vec::new(alloc), fails);
    match opener.obtain(alloc, Some(b"store.db")) {
        Ok(keeper) => start_on(alloc, keeper, None),
        Err(_) => Err(Stop::Mem),
    }
}
