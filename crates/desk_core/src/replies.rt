// Replies of what became of an event.
ghost use Rattle.std.specs.Prelude.{◌≡◌, Ok, Err, Result};
ghost use Rattle.desk_model.specs.Replies.{plain_reply, rows_of, Stored, Refused};
ghost use Rattle.desk_core.specs.Answered.{change_reply, keep_refusal, rows_reply, told_reply};

use desk_model::Reply;
use graph_model::{ChangeReply, Column, Mem, Refusal};
use store_keeper::KeepRefusal;

/// The reply to a change.
pub(crate) fn changed(made: Result<ChangeReply, Refusal>) -> Reply
    ensures { plain_reply result ≡ change_reply made }
{
    match made {
        Ok(answer) => Reply::Changed(answer),
        Err(why) => Reply::Refused(why),
    }
}

/// The reply of rows of the store.
pub(crate) fn stored(made: Result<Column, Mem>) -> Reply
    ensures { plain_reply result ≡ rows_reply made }
{
    match made {
        Ok(column) => Reply::Stored(column),
        Err(Mem) => Reply::Refused(Refusal::Mem),
    }
}

/// The reply of rows of a named graph.
pub(crate) fn told(made: Result<Column, Refusal>) -> Reply
    ensures { plain_reply result ≡ told_reply made }
{
    match made {
        Ok(column) => Reply::Rows(column),
        Err(why) => Reply::Refused(why),
    }
}

/// Why a change wasn't kept.
pub(crate) fn not_kept(why: KeepRefusal) -> Refusal
    ensures { result ≡ keep_refusal why }
{
    match why {
        KeepRefusal::Fault => Refusal::StoreFault { batches: 0 },
        KeepRefusal::Mem => Refusal::Mem,
    }
}
