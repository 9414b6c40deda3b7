// Why the program ended early.
use graph_model::Mem;
use std::alloc::{AllocError, AllocFailed};
use std::io;

/// Why the program ended early.
#[derive(Clone, Copy, Debug, PartialEq, Eq)]
pub(crate) enum Stop {
    /// A line is no row.
    Row,
    /// No memory was to be had.
    Mem,
    /// A file or a stream failed.
    Io,
}

impl Stop {
    /// The exit status.
    pub(crate) fn status(self) -> u8 {
        match self {
            Stop::Row => 3,
            Stop::Io => 5,
            Stop::Mem => 6,
        }
    }
}

impl From<Mem> for Stop {
    fn from(_error: Mem) -> Stop {
        Stop::Mem
    }
}

impl From<AllocError> for Stop {
    fn from(_error: AllocError) -> Stop {
        Stop::Mem
    }
}

impl<T: Drop> From<AllocFailed<T>> for Stop {
    fn from(_error: AllocFailed<T>) -> Stop {
        Stop::Mem
    }
}

impl From<io::Error> for Stop {
    fn from(_error: io::Error) -> Stop {
        Stop::Io
    }
}
