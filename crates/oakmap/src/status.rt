//! The statuses with which the program ends.
ghost use Rattle.std.specs.Prelude.{◌≡◌};
ghost use Rattle.oakmap.specs.Ends.{code_of, closed_of};

use crate::ended::Ended;
use oak_core::Closed;

/// The greatest number of bytes of an input.
pub const GREATEST_INPUT: usize = 16_777_216;

/// How the program ended. Where a run's text or its summary was written, the map of the run is there, closed.
#[derive(Drop)]
pub enum Status {
    /// The run's whole text was written, or its summary.
    Done(Closed),
    /// The words give no command.
    Usage,
    /// The input is no script, or longer than it may be.
    NoScript,
    /// The source failed.
    ReadFault,
    /// The sink failed while the text was written.
    WriteFault(Closed),
    /// No memory was found.
    NoMemory,
}

impl Status {
    /// The number with which the process ends.
    pub fn code(&self) -> u8
        ensures { result ≡ code_of self.now }
    {
        match self {
            Status::Done(_) => 0,
            Status::Usage => 2,
            Status::NoScript => 3,
            Status::ReadFault => 4,
            Status::WriteFault(_) => 5,
            Status::NoMemory => 6,
        }
    }

    /// The number, and the closed map where there is one.
    pub fn told(self) -> Ended
        ensures status { result.status ≡ code_of self }
        ensures closed { result.closed ≡ closed_of self }
    {
        let status = self.code();
        let closed = match self {
            Status::Done(closed) => Some(closed),
            Status::WriteFault(closed) => Some(closed),
            Status::Usage | Status::NoScript | Status::ReadFault | Status::NoMemory => None,
        };
        Ended { status, closed }
    }
}
