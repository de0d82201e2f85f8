// Want of memory, the one thing that ends a script before its end.
use std::alloc::{AllocError, AllocFailed};
use std::error::Error;
use std::fmt;

// There is no memory for a line, a register or an answer.
#[derive(Clone, Copy, Debug)]
pub(crate) struct NoMemory;

impl From<AllocError> for NoMemory {
    fn from(_error: AllocError) -> NoMemory {
        NoMemory
    }
}

impl From<fmt::Error> for NoMemory {
    fn from(_error: fmt::Error) -> NoMemory {
        NoMemory
    }
}

impl<T: Drop> From<AllocFailed<T>> for NoMemory {
    fn from(_error: AllocFailed<T>) -> NoMemory {
        NoMemory
    }
}

impl fmt::Display for NoMemory {
    fn fmt<W: fmt::Write>(&self, f: &mut fmt::Formatter<W>) -> fmt::Result {
        write!(f, "out of memory")
    }
}

impl Error for NoMemory {}
