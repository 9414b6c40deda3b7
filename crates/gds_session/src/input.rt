// Reading a source to its end, within a budget.
ghost use Rattle.std.specs.Prelude.{◌≡◌, ◌≢◌, ◌+◌, ◌<◌, ◌≤◌, [], ◌++◌, length, Ok, Err, IfOk, OnOk, OnErr, IfErr, vec_len, take, drop};
ghost use Rattle.std.specs.Io.KnownBytes.{Consumes, IsAtEnd, Keeps, ReadConsumes};
ghost use Rattle.gds_causes.specs.Faults.{Rose};
ghost use Rattle.gds_session.specs.Ending.{ReadPiece};

use gds_causes::Source;
use std::alloc::{AllocError, Global};

const PIECE: usize = 65_536;

/// Why a source was not read to its end.
#[derive(Clone, Copy, Debug, PartialEq, Eq)]
pub(crate) enum ReadStop {
    /// A read failed.
    Fault,
    /// As many bytes were taken as the budget allows, and the end wasn't seen.
    Spent,
    /// No memory was to be had.
    OutOfMemory,
}

// Reads once, at most as many bytes as `piece` holds, puts them behind those that are there, and answers how many came.
pub(crate) fn read_piece<S: Source>(
    source: &mut S,
    piece: &mut [u8],
    bytes: &mut Vec<u8>,
) -> Result<usize, ReadStop>
    requires { 0 < length piece.old }
    ensures ok { IfOk result (λ n. n ≤ length piece.old) }
    ensures end { IfOk result (λ n. n ≡ 0 → IsAtEnd (S.remaining source.new)) }
    ensures bytes { ReadPiece (S.remaining source.old) (S.remaining source.new) bytes.old.items bytes.new.items result }
    ensures fault { result ≡ Err ReadStop.Fault → Rose (S.faults source.old) (S.faults source.new) }
    ensures budget { result ≡ Err ReadStop.Spent → ⊥ }
    ensures calm { result ≢ Err ReadStop.Fault → S.faults source.new ≡ S.faults source.old }
    ensures later { S.faults source.old ≤ S.faults source.new }
{
    if bytes.reserve(piece.len()).is_err() {
        return Err(ReadStop::OutOfMemory);
    }
    match source.read(piece) {
        Ok(n) => {
            bytes.extend_from_slice(&piece[..n]).unwrap();
            Ok(n)
        }
        Err(_) => Err(ReadStop::Fault),
    }
}

// Room for one piece.
pub(crate) fn make_piece(alloc: Global) -> Result<Vec<u8>, AllocError>
    ensures { IfOk result (λ piece. vec_len piece ≡ PIECE) }
{
    vec![in alloc; 0u8; PIECE]
}

/// Reads a source to its end into `bytes`, which begin empty, at most as many bytes as the budget. Each turn takes at
/// least one byte. `bytes` hold what was taken, whatever the answer is.
pub(crate) fn read_to_end<S: Source>(
    alloc: Global,
    source: &mut S,
    budget: u64,
    bytes: &mut Vec<u8>,
) -> Result<(), ReadStop>
    requires { bytes.old.items ≡ [] }
    ensures taken { Consumes (S.remaining source.old) (S.remaining source.new) bytes.new.items }
    ensures within { length bytes.new.items ≤ budget }
    ensures ok { OnOk result (IsAtEnd (S.remaining source.new)) }
    ensures spent { result ≡ Err ReadStop.Spent → length bytes.new.items ≡ budget }
    ensures fault { result ≡ Err ReadStop.Fault → Rose (S.faults source.old) (S.faults source.new) }
    ensures later { S.faults source.old ≤ S.faults source.new }
{
    let Ok(mut piece) = make_piece(alloc) else {
        return Err(ReadStop::OutOfMemory);
    };
    let mut left = budget;
    while left > 0 {
        let room = room_for(left);
        match read_piece(source, &mut piece[..room], bytes) {
            Ok(0) => return Ok(()),
            Ok(n) => left -= n as u64,
            Err(stop) => return Err(stop),
        }
    }
    Err(ReadStop::Spent)
}

// How many bytes to ask for where so many are left.
pub(crate) fn room_for(left: u64) -> usize
    requires { 0 < left }
    ensures some { 0 < result }
    ensures piece { result ≤ PIECE }
    ensures left { result ≤ left }
{
    if left < PIECE as u64 {
        left as usize
    } else {
        PIECE
    }
}
