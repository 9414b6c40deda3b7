// The top call of every command.
ghost use Rattle.std.specs.Prelude.{◌≡◌, ◌≢◌, ◌↔◌, ◌≤◌, [], length, IsTrue, OnOk, OnErr, Ok, Err};
ghost use Rattle.std.specs.Io.KnownBytes.{Appends, IsAtEnd};
ghost use Rattle.std.specs.List.{AllByRecursion};
ghost use Rattle.gds_causes.specs.Faults.{Rose};
ghost use Rattle.gds_causes.specs.Front.{AppendsFront};
ghost use Rattle.gds_session.specs.Ending.{once_degree, Printed, Ran};
ghost use Rattle.gds_session.specs.OnceText.{degree_lines, once_text};
ghost use Rattle.gds_session.specs.Printing.{JoinsNodes};

use crate::degrees::{WriteStop, write_degrees};
use crate::ends::End;
use crate::input::{ReadStop, read_to_end};
use crate::once::{Input, InputRefusal, read_input};
use csr_columns::Csr;
use gds_causes::{Sink, Source};
use graph_model::List;
use std::alloc::Global;

// Whether a word has these bytes.
fn is_word(word: &List<u8>, bytes: &[u8]) -> bool
    ensures { IsTrue result ↔ (word.now ≡ bytes.now) }
{
    word.as_slice() == bytes
}

// Whether the words are `once`, `degree`.
fn is_once_degree(words: &List<List<u8>>) -> bool
    ensures { IsTrue result ↔ (words.now ≡ once_degree) }
{
    match words.as_slice() {
        [command, algorithm] => is_word(command, b"once") && is_word(algorithm, b"degree"),
        _ => false,
    }
}

// Writes the degrees of an input.
fn write_input<W: Sink>(alloc: Global, input: Input, sink: &mut W) -> Result<(), WriteStop>
    requires { AllByRecursion (JoinsNodes input.nodes) input.arcs.items }
    ensures ok { OnOk result (Appends (W.taken sink.old) (W.taken sink.new) (degree_lines input.nodes input.arcs.items)) }
    ensures err { OnErr result (AppendsFront (W.taken sink.old) (W.taken sink.new) (degree_lines input.nodes input.arcs.items)) }
    ensures fault { result ≡ Err WriteStop.Fault → Rose (W.faults sink.old) (W.faults sink.new) }
    ensures later { W.faults sink.old ≤ W.faults sink.new }
{
    let Input { nodes, mut arcs } = input;
    // In order, so that the rows are filled one after another and not all over memory.
    arcs.sort_unstable();
    let Ok(csr) = Csr::by_source(alloc, nodes, &arcs) else {
        return Err(WriteStop::OutOfMemory);
    };
    drop(arcs);
    write_degrees(alloc, &csr, sink)
}

// Prints the degrees of a whole input.
fn print_degrees<W: Sink>(alloc: Global, bytes: Vec<u8>, sink: &mut W) -> End
    ensures bytes { Printed result (once_text bytes.items) (W.taken sink.old) (W.taken sink.new) }
    ensures fault { result ≡ End.WriteFault → Rose (W.faults sink.old) (W.faults sink.new) }
    ensures later { W.faults sink.old ≤ W.faults sink.new }
{
    let input = match read_input(alloc, &bytes) {
        Ok(input) => input,
        Err(InputRefusal::Line(line)) => return End::BadInput { line },
        Err(InputRefusal::OutOfMemory) => return End::Mem,
    };
    drop(bytes);
    match write_input(alloc, input, sink) {
        Ok(()) => End::Done,
        Err(WriteStop::Fault) => End::WriteFault,
        Err(WriteStop::OutOfMemory) => End::Mem,
    }
}

// Reads the source to its end, and prints the degrees of what it says.
fn once<S: Source, W: Sink>(alloc: Global, source: &mut S, sink: &mut W, budget: u64) -> End
    ensures words { result ≢ End.BadWords }
    ensures bytes { Ran result budget (S.remaining source.old) (S.remaining source.new) (W.taken sink.old) (W.taken sink.new) }
    ensures read_fault { result ≡ End.ReadFault → Rose (S.faults source.old) (S.faults source.new) }
    ensures write_fault { result ≡ End.WriteFault → Rose (W.faults sink.old) (W.faults sink.new) }
    ensures reads_later { S.faults source.old ≤ S.faults source.new }
    ensures writes_later { W.faults sink.old ≤ W.faults sink.new }
{
    let mut bytes = Vec::new(alloc);
    match read_to_end(alloc, source, budget, &mut bytes) {
        Ok(()) => print_degrees(alloc, bytes, sink),
        Err(ReadStop::Fault) => End::ReadFault,
        Err(ReadStop::Spent) => End::Spent,
        Err(ReadStop::OutOfMemory) => End::Mem,
    }
}

/// Does what the words ask for. The words `once`, `degree` read the source as lines `nodes N` and `rel S T`, to its
/// end, and then print the degree of each node; no other words are a command.
///
/// At most `budget` bytes are read. The text is flushed at its end, and a failed flush is a write fault.
pub fn run<S: Source, W: Sink>(
    alloc: Global,
    words: &List<List<u8>>,
    source: &mut S,
    sink: &mut W,
    budget: u64,
) -> End
    // The words are no command exactly where they aren't `once`, `degree`, and then nothing was touched.
    ensures words { (result ≡ End.BadWords) ↔ (words.now ≢ once_degree) }
    ensures untouched { result ≡ End.BadWords → (source.new ≡ source.old) × (sink.new ≡ sink.old) }

    // What was read and written, and how it ended by that.
    ensures bytes { Ran result budget (S.remaining source.old) (S.remaining source.new) (W.taken sink.old) (W.taken sink.new) }

    // A fault comes only where the object's count rose.
    ensures read_fault { result ≡ End.ReadFault → Rose (S.faults source.old) (S.faults source.new) }
    ensures write_fault { result ≡ End.WriteFault → Rose (W.faults sink.old) (W.faults sink.new) }
    ensures reads_later { S.faults source.old ≤ S.faults source.new }
    ensures writes_later { W.faults sink.old ≤ W.faults sink.new }
{
    if !is_once_degree(words) {
        return End::BadWords;
    }
    once(alloc, source, sink, budget)
}
