// Changes whose answers are kept under import ids.
ghost use Rattle.std.specs.Prelude.{◌≡◌, ℕ, ◌<◌, ◌≤◌, List, Option, length, Some, None, Err, IfOk, IfErr, OnOk, OnErr};
ghost use Rattle.gds_causes.specs.Faults.{Rose};
ghost use Rattle.graph_model.specs.Change.{IsWellFormedChange, after_change, refused_change, change_answer};
ghost use Rattle.graph_model.specs.Kept.{most_imports};
ghost use Rattle.desk_model.specs.Step.{kept_answer, with_answer, IsPartStep};
ghost use Rattle.user_lists.specs.Users.{lists_of, OthersStay};
ghost use Rattle.desk_core.specs.Answered.{IsCause, UnlessStoreFault, change_reply};
ghost use Rattle.desk_core.specs.Fields.{IsDeskOf};

use crate::changing::keep_and_make;
use crate::replies::not_kept;
use desk_model::Event;
use graph_model::{Change, ChangeReply, Counter, ImportNote, Mem, Refusal, Tag, TryClone};
use graph_store::Store;
use std::alloc::Global;
use store_keeper::Keeper;
use user_lists::Users;
use user_lists::laws::forgetting_undoes_keeping;

const MOST_IMPORTS: usize = 65_536;

/// The note of an answer that is kept for a user under an import id.
fn note_of(user: &Tag, id: &Tag, answer: ChangeReply) -> Result<ImportNote, Mem>
    ensures { IfOk result (λ note. note ≡ record { user = user.now; id = id.now; answer = answer }) }
{
    Ok(ImportNote {
        user: user.try_clone()?,
        id: id.try_clone()?,
        answer,
    })
}

/// Makes a change under an import id under which no answer is kept. The answer is kept first, since that takes memory, and
/// forgotten again where the keeper fails.
fn make_import<K: Keeper>(
    keeper: &mut K,
    store: &mut Store,
    users: &mut Users,
    alloc: Global,
    user: &Tag,
    id: &Tag,
    change: &Change,
) -> Result<ChangeReply, Refusal>
    requires formed { IsWellFormedChange change.now }
    requires told { IsDeskOf (K.kept keeper.old) store.old users.old }
    requires new { kept_answer (Some id.now) (lists_of users.old user.now) ≡ None }
    requires room { length (lists_of users.old user.now).imports < most_imports }
    ensures ok { IfOk result (λ answer. answer ≡ change_answer store.old change.now) }
    ensures made { OnOk result (store.new ≡ after_change store.old change.now) }
    ensures kept { OnOk result (lists_of users.new user.now ≡ with_answer (Some id.now) (change_answer store.old change.now) (lists_of users.old user.now)) }
    ensures allowed { OnOk result (refused_change store.old change.now ≡ None) }
    ensures err { OnErr result (store.new ≡ store.old) }
    ensures err_lists { OnErr result (lists_of users.new user.now ≡ lists_of users.old user.now) }
    ensures refused { IfErr result (λ why. IsCause why (refused_change store.old change.now)) }
    ensures others { OthersStay user.now users.old users.new }
    ensures told { IsDeskOf (K.kept keeper.new) store.new users.new }
    ensures path { K.path keeper.new ≡ K.path keeper.old }
    ensures fault { result ≡ Err (Refusal.StoreFault 0) → Rose (K.faults keeper.old) (K.faults keeper.new) }
    ensures calm { UnlessStoreFault result (K.faults keeper.new ≡ K.faults keeper.old) }
    ensures later { K.faults keeper.old ≤ K.faults keeper.new }
{
    forgetting_undoes_keeping();
    let made = match store.prepare(alloc, change) {
        Ok(made) => made,
        Err(why) => return Err(why),
    };
    let answer = made.answer();
    let Ok(note) = note_of(user, id, answer) else {
        return Err(Refusal::Mem);
    };
    if users.keep_answer(alloc, user, id, answer).is_err() {
        return Err(Refusal::Mem);
    }
    match keep_and_make(keeper, store, alloc, change, Some(&note), made) {
        Ok(()) => Ok(answer),
        Err(why) => {
            users.forget_answer(alloc, user, id);
            Err(not_kept(why))
        }
    }
}

/// Makes a change under an import id, or gives the answer that is kept under it.
///
/// # Errors
/// `CounterSpent` where the id is new and as many answers are kept as may be; what the change is refused for; `StoreFault`
/// where the keeper failed; or `Mem`. Then the store and the user's lists are as they were.
pub(crate) fn import_change<K: Keeper>(
    keeper: &mut K,
    store: &mut Store,
    users: &mut Users,
    alloc: Global,
    user: &Tag,
    id: &Tag,
    change: &Change,
) -> Result<ChangeReply, Refusal>
    requires formed { IsWellFormedChange change.now }
    requires told { IsDeskOf (K.kept keeper.old) store.old users.old }
    ensures step { (admin : Option (List ℕ)) → IsPartStep user.now (Event.Change (Some id.now) change.now)
        (record { graph = store.old; admin = admin; lists = lists_of users.old user.now })
        (change_reply result)
        (record { graph = store.new; admin = admin; lists = lists_of users.new user.now }) }
    ensures others { OthersStay user.now users.old users.new }
    ensures told { IsDeskOf (K.kept keeper.new) store.new users.new }
    ensures path { K.path keeper.new ≡ K.path keeper.old }
    ensures fault { result ≡ Err (Refusal.StoreFault 0) → Rose (K.faults keeper.old) (K.faults keeper.new) }
    ensures calm { UnlessStoreFault result (K.faults keeper.new ≡ K.faults keeper.old) }
    ensures later { K.faults keeper.old ≤ K.faults keeper.new }
{
    if let Some(answer) = users.kept_answer(user, id) {
        return Ok(answer);
    }
    if users.import_count(user) >= MOST_IMPORTS {
        return Err(Refusal::CounterSpent {
            counter: Counter::Imports,
            last: MOST_IMPORTS as u64,
        });
    }
    make_import(keeper, store, users, alloc, user, id, change)
}
