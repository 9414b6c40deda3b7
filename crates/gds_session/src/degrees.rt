// Writing the degree of each node, in large pieces.
ghost use Rattle.std.specs.Prelude.{◌≡◌, ◌+◌, ◌<◌, ◌≤◌, [], ◌∷◌, ◌++◌, length, Ok, Err, OnOk, OnErr, codes, decimal, drop};
ghost use Rattle.std.specs.Io.KnownBytes.{Appends};
ghost use Rattle.gds_causes.specs.Faults.{Rose};
ghost use Rattle.gds_causes.specs.Front.{AppendsFront};
ghost use Rattle.gds_session.specs.Ending.{HandsOn, line_of_degree, lines_of_rows};

use csr_columns::Csr;
use gds_causes::{Sink, write_all};
use graph_model::Mem;
use itoa::write_digits;
use std::alloc::Global;

const PIECE: usize = 65_536;

// Two numbers of at most 20 digits, a space and an LF.
const LONGEST_LINE: usize = 42;

/// Why a text was not written whole.
#[derive(Clone, Copy, Debug, PartialEq, Eq)]
pub(crate) enum WriteStop {
    /// A write failed.
    Fault,
    /// No memory was to be had.
    OutOfMemory,
}

// The bytes of the line of a node, its id and its degree, at the end of `line`; answers where they begin.
fn write_line(line: &mut [u8; LONGEST_LINE], node: u32, degree: usize) -> usize
    ensures bound { result ≤ LONGEST_LINE }
    ensures line { drop result line.new ≡ line_of_degree node degree }
{
    let end = LONGEST_LINE - 1;
    line[end] = b'\n';
    let space = write_digits(degree as u64, line, end) - 1;
    line[space] = b' ';
    write_digits(u64::from(node), line, space)
}

// Puts the line of a node behind a text.
fn push_line(text: &mut Vec<u8>, node: u32, degree: usize) -> Result<(), Mem>
    ensures { OnOk result (text.new.items ≡ text.old.items ++ line_of_degree node degree) }
{
    let mut line = [0u8; LONGEST_LINE];
    let start = write_line(&mut line, node, degree);
    text.extend_from_slice(&line[start..])?;
    Ok(())
}

// Writes a text that has grown to a piece, and empties it.
fn hand_on<W: Sink>(sink: &mut W, text: &mut Vec<u8>) -> Result<(), WriteStop>
    ensures ok { OnOk result (HandsOn (W.taken sink.old) (W.taken sink.new) text.old.items text.new.items) }
    ensures err { OnErr result (AppendsFront (W.taken sink.old) (W.taken sink.new) text.old.items) }
    ensures fault { OnErr result (Rose (W.faults sink.old) (W.faults sink.new)) }
    ensures cause { OnErr result (result ≡ Err WriteStop.Fault) }
    ensures later { W.faults sink.old ≤ W.faults sink.new }
{
    if text.len() < PIECE {
        return Ok(());
    }
    if write_all(sink, text).is_err() {
        return Err(WriteStop::Fault);
    }
    text.clear();
    Ok(())
}

// Writes the end of a text, and flushes all of it.
fn finish<W: Sink>(sink: &mut W, text: &[u8]) -> Result<(), WriteStop>
    ensures ok { OnOk result (Appends (W.taken sink.old) (W.taken sink.new) text.now) }
    ensures err { OnErr result (AppendsFront (W.taken sink.old) (W.taken sink.new) text.now) }
    ensures fault { OnErr result (Rose (W.faults sink.old) (W.faults sink.new)) }
    ensures later { W.faults sink.old ≤ W.faults sink.new }
{
    if write_all(sink, text).is_err() {
        return Err(WriteStop::Fault);
    }
    if sink.flush().is_err() {
        return Err(WriteStop::Fault);
    }
    Ok(())
}

/// Writes a line for each node with the number of arcs from it, ascending, and flushes them.
///
/// # Errors
/// Where a write or the flush failed, or there was no memory. Then the sink took a front of the text.
pub(crate) fn write_degrees<W: Sink>(
    alloc: Global,
    csr: &Csr,
    sink: &mut W,
) -> Result<(), WriteStop>
    ensures ok { OnOk result (Appends (W.taken sink.old) (W.taken sink.new) (lines_of_rows 0 csr.now.rows)) }
    ensures err { OnErr result (AppendsFront (W.taken sink.old) (W.taken sink.new) (lines_of_rows 0 csr.now.rows)) }
    ensures fault { result ≡ Err WriteStop.Fault → Rose (W.faults sink.old) (W.faults sink.new) }
    ensures later { W.faults sink.old ≤ W.faults sink.new }
{
    let mut text = Vec::new(alloc);
    for node in 0..csr.node_count() {
        let Ok(()) = push_line(&mut text, node, csr.row(node).len()) else {
            return Err(WriteStop::OutOfMemory);
        };
        if let Err(stop) = hand_on(sink, &mut text) {
            return Err(stop);
        }
    }
    finish(sink, &text)
}
