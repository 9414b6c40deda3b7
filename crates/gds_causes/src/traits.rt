// The two traits of the outside, and `write_all` over any sink.
ghost use Rattle.std.specs.Prelude.{◌≡◌, ℕ, List, Option, ◌<◌, ◌≤◌, length, IfOk, OnOk, OnErr};
ghost use Rattle.std.specs.Option.{option_map};
ghost use Rattle.std.specs.Io.KnownBytes.{Appends, Keeps, ReadConsumes, WriteAppends};
ghost use Rattle.gds_causes.specs.Faults.{Rose};
ghost use Rattle.gds_causes.specs.Front.{AppendsFront};

/// A read, a write or a flush failed. The count of faults of the object that was asked rose in that call.
#[derive(Clone, Copy, Debug, PartialEq, Eq)]
pub struct Failed;

/// Where bytes come from.
pub trait Source {
    /// The bytes that are left, where the source tells them.
    ghost remaining: { Self → Option (List ℕ) };

    /// How many calls failed. It never falls, and stands still at the greatest u64.
    ghost faults: { Self → ℕ };

    /// Takes the next bytes, and answers how many. `Ok(0)` for an `into` that isn't empty is the end of input.
    ///
    /// # Errors
    /// `Failed` exactly where the count of faults rises: the source could not be read. Then nothing was taken.
    fn read(&mut self, into: &mut [u8]) -> Result<usize, Failed>
        ensures bound { IfOk result (λ n. n ≤ length into.new) }
        ensures bytes { ReadConsumes (remaining self.old) (remaining self.new) result into.new }
        ensures fault { OnErr result (Rose (faults self.old) (faults self.new)) }
        ensures calm { OnOk result (faults self.new ≡ faults self.old) }
        ensures later { faults self.old ≤ faults self.new };
}

/// Where bytes go.
pub trait Sink {
    /// The bytes that were taken, where the sink tells them.
    ghost taken: { Self → Option (List ℕ) };

    /// How many of them were flushed, where the sink tells them.
    ghost flushed: { Self → Option ℕ };

    /// How many calls failed. It never falls, and stands still at the greatest u64.
    ghost faults: { Self → ℕ };

    /// Takes a front of `from`, at least one byte where `from` isn't empty, and answers how many bytes.
    ///
    /// # Errors
    /// `Failed` exactly where the count of faults rises: the sink could not be written. Then nothing was taken.
    fn write(&mut self, from: &[u8]) -> Result<usize, Failed>
        ensures bound { IfOk result (λ n. n ≤ length from.now) }
        ensures progress { IfOk result (λ n. 0 < length from.now → 0 < n) }
        ensures bytes { WriteAppends (taken self.old) (taken self.new) result from.now }
        ensures held { flushed self.new ≡ flushed self.old }
        ensures fault { OnErr result (Rose (faults self.old) (faults self.new)) }
        ensures calm { OnOk result (faults self.new ≡ faults self.old) }
        ensures later { faults self.old ≤ faults self.new };

    /// Hands on what was taken, all of it. It takes nothing itself.
    ///
    /// # Errors
    /// `Failed` exactly where the count of faults rises: the sink could not be flushed. Then no more is flushed than was.
    fn flush(&mut self) -> Result<(), Failed>
        ensures bytes { Keeps (taken self.old) (taken self.new) }
        ensures flushed { OnOk result (flushed self.new ≡ option_map length (taken self.new)) }
        ensures held { OnErr result (flushed self.new ≡ flushed self.old) }
        ensures fault { OnErr result (Rose (faults self.old) (faults self.new)) }
        ensures calm { OnOk result (faults self.new ≡ faults self.old) }
        ensures later { faults self.old ≤ faults self.new };
}

/// Writes all of `from`, a piece after another.
///
/// # Errors
/// `Failed` exactly where the sink's count of faults rises: a write failed. Then the sink took a front of `from`.
pub fn write_all<W: Sink>(sink: &mut W, from: &[u8]) -> Result<(), Failed>
    ensures ok { OnOk result (Appends (W.taken sink.old) (W.taken sink.new) from.now) }
    ensures err { OnErr result (AppendsFront (W.taken sink.old) (W.taken sink.new) from.now) }
    ensures held { W.flushed sink.new ≡ W.flushed sink.old }
    ensures fault { OnErr result (Rose (W.faults sink.old) (W.faults sink.new)) }
    ensures calm { OnOk result (W.faults sink.new ≡ W.faults sink.old) }
    ensures later { W.faults sink.old ≤ W.faults sink.new }
{
    let mut at = 0;
    while at < from.len() {
        at += sink.write(&from[at..])?;
    }
    Ok(())
}
