//! Why the program may end early.
use speedy::Error;
use std::alloc::AllocError;
use std::io;

/// Why the program ended early.
#[derive(Debug, Drop)]
pub enum Failure {
    /// A message was not written or not read, or memory lacked.
    Speedy(Error),
    /// A line was not printed.
    Print(io::Error),
}

impl From<Error> for Failure {
    fn from(error: Error) -> Failure {
        Failure::Speedy(error)
    }
}

impl From<AllocError> for Failure {
    fn from(error: AllocError) -> Failure {
        Failure::Speedy(Error::from(error))
    }
}

impl From<io::Error> for Failure {
    fn from(error: io::Error) -> Failure {
        Failure::Print(error)
    }
}
