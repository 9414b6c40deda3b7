// The status of an answer over HTTP.
ghost use Rattle.std.specs.Prelude.{◌≡◌};
ghost use Rattle.desk_model.specs.Replies.{plain_reply};
ghost use Rattle.call_codec.specs.Refusals.{status_of};

use crate::refused::row_of;
use desk_model::Reply;

/// The status of an answer over HTTP: 200, or that of its refusal. It takes no memory.
pub fn status_of(reply: &Reply) -> u16
    ensures { result ≡ status_of (plain_reply reply.now) }
{
    match reply {
        Reply::Refused(why) => row_of(why).status,
        _ => 200,
    }
}
