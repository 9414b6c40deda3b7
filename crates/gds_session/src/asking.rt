// A shell: lines of JSON that are read, performed and answered.
ghost use Rattle.std.specs.Prelude.{◌≡◌, ◌≢◌, ◌<◌, ◌≤◌, [], length};
ghost use Rattle.gds_causes.specs.Faults.{Rose};
ghost use Rattle.desk_core.specs.Fields.{state_of};
ghost use Rattle.gds_session.specs.Serving.{EndsBy, IsTaken, Shelled, Turned, asks_with, end_of_read, end_of_stop, moment};

use crate::degrees::WriteStop;
use crate::ends::End;
use crate::input::{ReadStop, make_piece, read_piece, room_for};
use crate::serving::{Pending, serve_piece, serve_whole};
use desk_core::Desk;
use gds_causes::{Sink, Source};
use std::alloc::Global;
use store_keeper::Keeper;

/// What became of one read.
#[derive(Clone, Copy, Debug, PartialEq, Eq)]
enum Turn {
    /// So many bytes came, and the lines that they made whole were answered.
    More(usize),
    /// The shell ends.
    Over(End),
}

/// How a shell ends where writing stopped.
fn write_end(why: WriteStop) -> End
    ensures { result ≡ end_of_stop why }
{
    match why {
        WriteStop::Fault => End::WriteFault,
        WriteStop::OutOfMemory => End::Mem,
    }
}

/// How a shell ends where reading stopped.
fn read_end(why: ReadStop) -> End
    ensures { result ≡ end_of_read why }
{
    match why {
        ReadStop::Fault => End::ReadFault,
        ReadStop::Spent | ReadStop::OutOfMemory => End::Mem,
    }
}

/// Answers the last line, which no LF ends.
fn serve_last<W: Sink, K: Keeper>(
    alloc: Global,
    sink: &mut W,
    desk: &mut Desk<K>,
    pending: &mut Pending,
) -> End
    ensures ends { EndsBy result (asks_with pending.old.long pending.old.bytes.items [])
        (moment (state_of desk.old) (K.faults desk.old.keeper) (W.taken sink.old) (W.flushed sink.old) (W.faults sink.old))
        (moment (state_of desk.new) (K.faults desk.new.keeper) (W.taken sink.new) (W.flushed sink.new) (W.faults sink.new)) }
    ensures fault { result ≡ End.WriteFault → Rose (W.faults sink.old) (W.faults sink.new) }
    ensures path { K.path desk.new.keeper ≡ K.path desk.old.keeper }
    ensures later { W.faults sink.old ≤ W.faults sink.new }
{
    match serve_whole(alloc, sink, desk, pending, &[]) {
        Ok(()) => End::Done,
        Err(WriteStop::Fault) => End::WriteFault,
        Err(WriteStop::OutOfMemory) => End::Mem,
    }
}

/// Reads once, and answers the lines that are whole then.
fn take_turn<S: Source, W: Sink, K: Keeper>(
    alloc: Global,
    source: &mut S,
    piece: &mut [u8],
    bytes: &mut Vec<u8>,
    sink: &mut W,
    desk: &mut Desk<K>,
    pending: &mut Pending,
) -> Turn
    requires room { 0 < length piece.old }
    requires fresh { bytes.old.items ≡ [] }
    ensures turned { Turned result (length piece.old) (S.remaining source.old) (S.remaining source.new)
        pending.old.long pending.old.bytes.items pending.new.long pending.new.bytes.items
        (moment (state_of desk.old) (K.faults desk.old.keeper) (W.taken sink.old) (W.flushed sink.old) (W.faults sink.old))
        (moment (state_of desk.new) (K.faults desk.new.keeper) (W.taken sink.new) (W.flushed sink.new) (W.faults sink.new)) }
    ensures taken { IsTaken result (length piece.old) }
    ensures read_fault { result ≡ Turn.Over End.ReadFault → Rose (S.faults source.old) (S.faults source.new) }
    ensures write_fault { result ≡ Turn.Over End.WriteFault → Rose (W.faults sink.old) (W.faults sink.new) }
    ensures reads_calm { result ≢ Turn.Over End.ReadFault → S.faults source.new ≡ S.faults source.old }
    ensures reads_later { S.faults source.old ≤ S.faults source.new }
    ensures path { K.path desk.new.keeper ≡ K.path desk.old.keeper }
    ensures writes_later { W.faults sink.old ≤ W.faults sink.new }
{
    match read_piece(source, piece, bytes) {
        Ok(0) => Turn::Over(serve_last(alloc, sink, desk, pending)),
        Ok(n) => match serve_piece(alloc, sink, desk, pending, bytes) {
            Ok(()) => Turn::More(n),
            Err(why) => Turn::Over(write_end(why)),
        },
        Err(why) => Turn::Over(read_end(why)),
    }
}

/// Reads lines of JSON to the end of the source, performs each on the desk and answers it: a line that is a call by the
/// call's reply, and another one by its refusal. Lines of blanks are passed over. A line longer than 16,777,216 bytes is
/// refused and isn't kept.
///
/// At most `budget` bytes are read. Each answer is written and flushed before more is read.
pub fn shell<S: Source, W: Sink, K: Keeper>(
    alloc: Global,
    source: &mut S,
    sink: &mut W,
    desk: &mut Desk<K>,
    budget: u64,
) -> End
    // What was read, which entries performed it, what was written, and how it ended by that.
    ensures served { Shelled result budget (S.remaining source.old) (S.remaining source.new)
        (moment (state_of desk.old) (K.faults desk.old.keeper) (W.taken sink.old) (W.flushed sink.old) (W.faults sink.old))
        (moment (state_of desk.new) (K.faults desk.new.keeper) (W.taken sink.new) (W.flushed sink.new) (W.faults sink.new)) }

    // A fault comes only where the object's count rose, and the source's rises for no other end; `served` says it of the sink.
    ensures read_fault { result ≡ End.ReadFault → Rose (S.faults source.old) (S.faults source.new) }
    ensures reads_calm { result ≢ End.ReadFault → S.faults source.new ≡ S.faults source.old }
    ensures write_fault { result ≡ End.WriteFault → Rose (W.faults sink.old) (W.faults sink.new) }
    ensures reads_later { S.faults source.old ≤ S.faults source.new }
    ensures path { K.path desk.new.keeper ≡ K.path desk.old.keeper }
    ensures writes_later { W.faults sink.old ≤ W.faults sink.new }
{
    let Ok(mut piece) = make_piece(alloc) else {
        return End::Mem;
    };
    let mut bytes = Vec::new(alloc);
    let mut pending = Pending::new(alloc);
    let mut left = budget;
    while left > 0 {
        bytes.clear();
        let room = room_for(left);
        match take_turn(
            alloc,
            source,
            &mut piece[..room],
            &mut bytes,
            sink,
            desk,
            &mut pending,
        ) {
            Turn::More(n) => left -= n as u64,
            Turn::Over(end) => return end,
        }
    }
    End::Spent
}
