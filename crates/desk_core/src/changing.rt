// Changes that are kept and made.
ghost use Rattle.std.specs.Prelude.{◌≡◌, ◌≤◌, None, Err, option_copied, IfOk, IfErr, OnOk, OnErr};
ghost use Rattle.std.specs.Option.{option_map};
ghost use Rattle.gds_causes.specs.Faults.{Rose};
ghost use Rattle.graph_model.specs.Change.{IsWellFormedChange, after_change, refused_change, change_answer};
ghost use Rattle.graph_model.specs.Kept.{notes_after};
ghost use Rattle.store_keeper.specs.Keeping.{FitsTold, UnlessFault};
ghost use Rattle.desk_core.specs.Answered.{IsCause, UnlessStoreFault};
ghost use Rattle.desk_core.specs.Fields.{TellsGraph, told_notes};

use crate::replies::not_kept;
use graph_model::{Change, ChangeReply, ImportNote, Refusal};
use graph_store::{Prepared, Store};
use std::alloc::Global;
use store_keeper::{KeepRefusal, Keeper};

/// Has a change kept that was prepared, with its note where it came with one, and makes it on the store. The graph that is
/// kept is the store's, also after an error.
///
/// # Errors
/// `Fault` where the keeper failed, or `Mem`. Then the store is as it was.
pub(crate) fn keep_and_make<K: Keeper>(
    keeper: &mut K,
    store: &mut Store,
    alloc: Global,
    change: &Change,
    note: Option<&ImportNote>,
    made: Prepared,
) -> Result<(), KeepRefusal>
    requires formed { IsWellFormedChange change.now }
    requires allowed { refused_change store.old change.now ≡ None }
    requires prepared { made ≡ record { before = store.old; after = after_change store.old change.now; answer = change_answer store.old change.now } }
    requires told { TellsGraph (K.kept keeper.old) store.old }
    requires fits { FitsTold (K.kept keeper.old) change.now (option_copied note) }
    ensures ok { OnOk result (store.new ≡ after_change store.old change.now) }
    ensures err { OnErr result (store.new ≡ store.old) }
    ensures told { TellsGraph (K.kept keeper.new) store.new }
    ensures noted { OnOk result (told_notes (K.kept keeper.new) ≡ option_map (notes_after (option_copied note.entry)) (told_notes (K.kept keeper.old))) }
    ensures unnoted { OnErr result (told_notes (K.kept keeper.new) ≡ told_notes (K.kept keeper.old)) }
    ensures path { K.path keeper.new ≡ K.path keeper.old }
    ensures fault { result ≡ Err KeepRefusal.Fault → Rose (K.faults keeper.old) (K.faults keeper.new) }
    ensures calm { UnlessFault result (K.faults keeper.new ≡ K.faults keeper.old) }
    ensures later { K.faults keeper.old ≤ K.faults keeper.new }
{
    match keeper.commit(alloc, change, note) {
        Ok(()) => {
            store.apply(made);
            Ok(())
        }
        Err(why) => Err(why),
    }
}

/// Makes a change of which no answer is kept.
///
/// # Errors
/// What the change is refused for, `StoreFault` where the keeper failed, or `Mem`. Then the store is as it was.
pub(crate) fn make_change<K: Keeper>(
    keeper: &mut K,
    store: &mut Store,
    alloc: Global,
    change: &Change,
) -> Result<ChangeReply, Refusal>
    requires formed { IsWellFormedChange change.now }
    requires told { TellsGraph (K.kept keeper.old) store.old }
    ensures ok { IfOk result (λ answer. answer ≡ change_answer store.old change.now) }
    ensures made { OnOk result (store.new ≡ after_change store.old change.now) }
    ensures allowed { OnOk result (refused_change store.old change.now ≡ None) }
    ensures err { OnErr result (store.new ≡ store.old) }
    ensures refused { IfErr result (λ why. IsCause why (refused_change store.old change.now)) }
    ensures told { TellsGraph (K.kept keeper.new) store.new }
    ensures unnoted { told_notes (K.kept keeper.new) ≡ told_notes (K.kept keeper.old) }
    ensures path { K.path keeper.new ≡ K.path keeper.old }
    ensures fault { result ≡ Err (Refusal.StoreFault 0) → Rose (K.faults keeper.old) (K.faults keeper.new) }
    ensures calm { UnlessStoreFault result (K.faults keeper.new ≡ K.faults keeper.old) }
    ensures later { K.faults keeper.old ≤ K.faults keeper.new }
{
    let made = match store.prepare(alloc, change) {
        Ok(made) => made,
        Err(why) => return Err(why),
    };
    let answer = made.answer();
    match keep_and_make(keeper, store, alloc, change, None, made) {
        Ok(()) => Ok(answer),
        Err(why) => Err(not_kept(why)),
    }
}
