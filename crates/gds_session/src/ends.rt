// How a command ends, and what its caller is told of it.
ghost use Rattle.std.specs.Prelude.{◌≡◌, IfOk};

use std::fmt;

/// How a command ended.
#[derive(Clone, Copy, Debug, PartialEq, Eq)]
pub enum End {
    /// The source was read to its end, and everything was written.
    Done,
    /// The words are no command.
    BadWords,
    /// This line of the input, counted from 1, is the first that breaks the format. Nothing was written.
    BadInput { line: u64 },
    /// The source could not be read.
    ReadFault,
    /// The sink could not be written.
    WriteFault,
    /// No memory was to be had.
    Mem,
    /// As many bytes were read as the budget allows, and the end of the source wasn't seen.
    Spent,
}

impl End {
    ghost use Rattle.gds_session.specs.Status.{status_of};

    /// The status with which the program ends, after the text that says why was written to `out`: one line, or nothing
    /// for `Done`.
    ///
    /// # Errors
    /// Where `out` doesn't take the text.
    pub fn report<W: fmt::Write>(&self, out: &mut W) -> Result<u8, fmt::Error>
        ensures { IfOk result (λ status. status ≡ status_of self.now) }
    {
        match self {
            End::Done => return Ok(0),
            End::BadWords => writeln!(out, "gds: bad words")?,
            End::BadInput { line } => writeln!(out, "gds: bad input at line {line}")?,
            End::ReadFault => writeln!(out, "gds: read fault")?,
            End::WriteFault => writeln!(out, "gds: write fault")?,
            End::Mem => writeln!(out, "gds: out of memory")?,
            End::Spent => writeln!(out, "gds: budget spent")?,
        }
        Ok(self.status())
    }

    /// The status with which the program ends.
    pub fn status(&self) -> u8
        ensures { result ≡ status_of self.now }
    {
        match self {
            End::Done => 0,
            End::BadWords => 2,
            End::BadInput { .. } => 3,
            End::ReadFault => 4,
            End::WriteFault => 5,
            End::Mem => 6,
            End::Spent => 7,
        }
    }
}
