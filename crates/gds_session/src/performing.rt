// Lines that are performed on the desk.
ghost use Rattle.std.specs.Prelude.{◌≡◌, ◌≤◌, length};
ghost use Rattle.desk_model.specs.Replies.{plain_reply};
ghost use Rattle.desk_model.specs.Script.{IsFormedCall};
ghost use Rattle.desk_core.specs.Fields.{state_of};
ghost use Rattle.call_codec.specs.Lines.{line_item, most_line_bytes};
ghost use Rattle.gds_session.specs.Serving.{Performs, event_for};

use call_codec::line_call;
use desk_core::{Asked, Call, Desk, Event, Reply};
use graph_model::Tag;
use std::alloc::Global;
use store_keeper::Keeper;

/// The event that performs a call.
fn event_for(call: Call) -> Event
    ensures { result ≡ event_for call }
{
    match call {
        Call::Create { import, change } => Event::Change { import, change },
        Call::Alter { change } => Event::Change {
            import: None,
            change,
        },
        Call::StoreRows { key, labels } => Event::StoreRows { key, labels },
    }
}

/// What a user asks by a call.
fn asked_by(user: Tag, call: Call) -> Asked
    ensures user { result.user ≡ user }
    ensures event { result.event ≡ event_for call }
{
    let event = event_for(call);
    Asked { user, event }
}

/// Answers what a line asks, on the desk or by its refusal.
pub(crate) fn perform<K: Keeper>(alloc: Global, desk: &mut Desk<K>, line: &[u8]) -> Reply
    requires { length line.now ≤ most_line_bytes }
    ensures performs { Performs (line_item line.now) (plain_reply result) (state_of desk.old) (state_of desk.new) (K.faults desk.old.keeper) (K.faults desk.new.keeper) }
    ensures path { K.path desk.new.keeper ≡ K.path desk.old.keeper }
{
    match line_call(alloc, line) {
        Ok((user, call)) => desk.apply(alloc, asked_by(user, call)),
        Err(why) => Reply::Refused(why),
    }
}
