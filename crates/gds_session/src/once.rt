// The input of `once degree`: lines that say a number of nodes and the arcs between them.
ghost use Rattle.std.specs.Prelude.{true, false, IfSome, IfNone, ◌≡◌, ℕ, ◌+◌, ◌<◌, ◌≤◌, ◌∷◌, [], ◌++◌, length, if◌then◌else◌, Some, None, Ok, Err, IfOk, IfErr, MatchOption, MatchResult, position, nat_eq, drop};
ghost use Rattle.std.specs.List.{starts_with, before_first, after_first, position_or_len, AllByRecursion};
ghost use Rattle.gds_session.specs.OnceText.{most_nodes, most_arcs, is_space, lines_of, is_decimal, number_below, node_count_of, ends_of, arc_of, arcs_of, once_text, degree_lines};
ghost use Rattle.gds_session.specs.Printing.{JoinsNodes};
ghost use Rattle.gds_session.specs.declared.once.InputRefusal.TheVariants.{OutOfMemory};
ghost use Rattle.gds_session.specs.Reading.{is_byte, digits_below, IsArcLine, IsNoArcLine, SaysNone, Reads};

use crate::ahead::arc_ahead;
use std::alloc::{AllocError, AllocFailed, Global};

const MOST_NODES: u32 = 4_194_304;

const MOST_ARCS: usize = 16_777_216;

/// A number of nodes, and the arcs between them as pairs of source and target, in the order of the input.
#[derive(Drop)]
pub(crate) struct Input {
    pub(crate) nodes: u32,
    pub(crate) arcs: Vec<(u32, u32)>,
}

/// Why an input is no graph.
#[derive(Clone, Copy, Debug, PartialEq, Eq)]
pub(crate) enum InputRefusal {
    /// The first line that breaks the format, counted from 1.
    Line(u64),
    /// No memory was to be had.
    OutOfMemory,
}

impl From<AllocError> for InputRefusal {
    ghost from_gives = { λ _ why. why ≡ OutOfMemory };

    fn from(_error: AllocError) -> InputRefusal {
        InputRefusal::OutOfMemory
    }
}

impl<T: Drop> From<AllocFailed<T>> for InputRefusal {
    ghost from_gives = { λ _ why. why ≡ OutOfMemory };

    fn from(_error: AllocFailed<T>) -> InputRefusal {
        InputRefusal::OutOfMemory
    }
}

// How many bytes stand before the first one like this, or how many there are.
pub(crate) fn place_of(byte: u8, text: &[u8]) -> usize
    ensures place { result ≡ position_or_len (is_byte byte) text.now }
    ensures bound { result ≤ length text.now }
{
    for (i, b) in text.iter().enumerate() {
        if *b == byte {
            return i;
        }
    }
    text.len()
}

// What stands before the first byte like this, and what stands after it.
fn split_around(byte: u8, text: &[u8]) -> (&[u8], &[u8])
    ensures front { result.0.now ≡ before_first (is_byte byte) text.now }
    ensures back { result.1.now ≡ after_first (is_byte byte) text.now }
{
    let (front, rest) = text.split_at(place_of(byte, text));
    match rest.split_first() {
        Some((_, after)) => (front, after),
        None => (front, rest),
    }
}

// The first line of a text that isn't empty, and what stands after it.
fn split_line(text: &[u8]) -> (&[u8], &[u8])
    requires { 0 < length text.now }
    ensures lines { lines_of text.now ≡ result.0.now ∷ lines_of result.1.now }
    ensures shorter { length result.1.now < length text.now }
{
    split_around(b'\n', text)
}

// The number below a limit that a text writes in decimal digits, with no 0 before another digit.
fn number_below(limit: u32, text: &[u8]) -> Option<u32>
    requires { limit ≤ most_nodes + 1 }
    ensures value { result ≡ number_below limit text.now }
    ensures below { IfSome result (λ n. n < limit) }
{
    if text.len() > 1 && text[0] == b'0' {
        return None;
    }
    digits_below(limit, text)
}

// The number below a limit that a text of decimal digits writes, where there is a digit.
fn digits_below(limit: u32, text: &[u8]) -> Option<u32>
    requires { limit ≤ most_nodes + 1 }
    ensures value { result ≡ digits_below limit text.now }
    ensures below { IfSome result (λ n. n < limit) }
{
    if text.is_empty() {
        return None;
    }
    let mut value = 0;
    for b in text {
        if !b.is_ascii_digit() {
            return None;
        }
        value = value * 10 + u32::from(*b - b'0');
        if value >= limit {
            return None;
        }
    }
    Some(value)
}

// What stands after a word at the front of a line.
pub(crate) fn strip_word<'a>(line: &'a [u8], word: &[u8]) -> Option<&'a [u8]>
    ensures found { IfSome result (λ rest. (starts_with nat_eq line.now word.now ≡ true) × (rest.now ≡ drop (length word.now) line.now)) }
    ensures none { IfNone result (starts_with nat_eq line.now word.now ≡ false) }
{
    if !line.starts_with(word) {
        return None;
    }
    Some(&line[word.len()..])
}

// The number of nodes that the line `nodes N` says.
fn node_count_of(line: &[u8]) -> Option<u32>
    ensures count { result ≡ node_count_of line.now }
    ensures few { IfSome result (λ nodes. nodes ≤ most_nodes) }
{
    let number = strip_word(line, b"nodes ")?;
    number_below(MOST_NODES + 1, number)
}

// The arc from S to T that the text `S T` says.
fn ends_of(nodes: u32, text: &[u8]) -> Option<(u32, u32)>
    requires { nodes ≤ most_nodes }
    ensures arc { result ≡ ends_of nodes text.now }
    ensures joins { IfSome result (JoinsNodes nodes) }
{
    let (source, target) = split_around(b' ', text);
    let source = number_below(nodes, source)?;
    let target = number_below(nodes, target)?;
    Some((source, target))
}

// The arc from S to T that the line `rel S T` says.
fn arc_of(nodes: u32, line: &[u8]) -> Option<(u32, u32)>
    requires { nodes ≤ most_nodes }
    ensures arc { result ≡ arc_of nodes line.now }
    ensures joins { IfSome result (JoinsNodes nodes) }
{
    let ends = strip_word(line, b"rel ")?;
    ends_of(nodes, ends)
}

// The arc that the first line of a text says, where it says one, and what stands after that line.
fn next_arc(nodes: u32, text: &[u8]) -> Option<((u32, u32), &[u8])>
    requires nodes { nodes ≤ most_nodes }
    requires some { 0 < length text.now }
    ensures { MatchOption result (IsNoArcLine nodes text.now) (λ taken. IsArcLine nodes text.now taken.0 taken.1.now) }
{
    if let Some(taken) = arc_ahead(nodes, text) {
        return Some(taken);
    }
    let (line, after) = split_line(text);
    match arc_of(nodes, line) {
        Some(arc) => Some((arc, after)),
        None => None,
    }
}

// The arcs that the lines of a text say, of which the first is line 2 of the input.
fn read_arcs(alloc: Global, nodes: u32, text: &[u8]) -> Result<Vec<(u32, u32)>, InputRefusal>
    requires { nodes ≤ most_nodes }
    ensures { MatchResult result
        (λ arcs. (arcs_of nodes 2 (lines_of text.now) ≡ Ok arcs.items) × AllByRecursion (JoinsNodes nodes) arcs.items)
        (SaysNone (arcs_of nodes 2 (lines_of text.now))) }
{
    let mut arcs = Vec::new(alloc);
    let mut rest = text;
    while !rest.is_empty() {
        let Some((arc, after)) = next_arc(nodes, rest) else {
            return Err(InputRefusal::Line(line_number(arcs.len())));
        };
        if arcs.len() >= MOST_ARCS {
            return Err(InputRefusal::Line(line_number(arcs.len())));
        }
        arcs.push(arc)?;
        rest = after;
    }
    Ok(arcs)
}

// The number of the line after that many arcs.
fn line_number(arcs: usize) -> u64
    requires { arcs ≤ most_arcs }
    ensures { result ≡ arcs + 2 }
{
    arcs as u64 + 2
}

// A number of nodes and arcs, from the lines of a text.
pub(crate) fn read_input(alloc: Global, text: &[u8]) -> Result<Input, InputRefusal>
    ensures { MatchResult result (Reads (once_text text.now)) (SaysNone (once_text text.now)) }
{
    if text.is_empty() {
        return Err(InputRefusal::Line(1));
    }
    let (first, rest) = split_line(text);
    let Some(nodes) = node_count_of(first) else {
        return Err(InputRefusal::Line(1));
    };
    let arcs = read_arcs(alloc, nodes, rest)?;
    Ok(Input { nodes, arcs })
}
