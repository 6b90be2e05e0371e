//! Why reading a line stops.
ghost use Rattle.std.specs.Prelude.{◌≡◌};
ghost use Rattle.oak_script.specs.declared.stops.Stop.TheVariants.{OutOfMemory};

use crate::faults::What;
use std::alloc::{AllocError, AllocFailed};

/// Why a line was not taken.
#[derive(Drop)]
pub enum Stop {
    Fault(What),
    OutOfMemory,
}

impl From<AllocError> for Stop {
    ghost from_gives = { λ _ e. e ≡ OutOfMemory };

    fn from(_e: AllocError) -> Stop {
        Stop::OutOfMemory
    }
}

impl<T: Drop> From<AllocFailed<T>> for Stop {
    ghost from_gives = { λ _ e. e ≡ OutOfMemory };

    fn from(_e: AllocFailed<T>) -> Stop {
        Stop::OutOfMemory
    }
}

impl From<oak_model::OutOfMemory> for Stop {
    ghost from_gives = { λ _ e. e ≡ OutOfMemory };

    fn from(_e: oak_model::OutOfMemory) -> Stop {
        Stop::OutOfMemory
    }
}
