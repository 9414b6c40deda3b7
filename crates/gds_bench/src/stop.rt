// Why a case ended early.
use graph_model::{Mem, Refusal};
use std::alloc::AllocError;
use std::io;

/// Why a case ended early.
#[derive(Clone, Copy, Debug, PartialEq, Eq)]
pub(crate) enum Stop {
    /// The words name no case, or a number in them is none.
    Words,
    /// The graph is greater than what is taken.
    Limit,
    /// No memory was to be had.
    Mem,
    /// The clock could not be read, or a stream failed.
    Io,
}

impl Stop {
    /// The exit status.
    pub(crate) fn status(self) -> u8 {
        match self {
            Stop::Words => 2,
            Stop::Limit => 3,
            Stop::Io => 5,
            Stop::Mem => 6,
        }
    }
}

impl From<Mem> for Stop {
    fn from(_error: Mem) -> Stop {
        Stop::Mem
    }
}

impl From<AllocError> for Stop {
    fn from(_error: AllocError) -> Stop {
        Stop::Mem
    }
}

impl From<io::Error> for Stop {
    fn from(_error: io::Error) -> Stop {
        Stop::Io
    }
}

impl From<Refusal> for Stop {
    fn from(_why: Refusal) -> Stop {
        Stop::Mem
    }
}
