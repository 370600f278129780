// Want of memory is one more refusal, so that `?` carries it.
ghost use Rattle.std.specs.Prelude.{◌≡◌};
ghost use Rattle.refusal.specs.Memory.{no_memory};

use crate::cause::Cause;
use crate::refusing::Refusal;
use std::alloc::{AllocError, AllocFailed};

impl From<AllocError> for Refusal {
    ghost from_gives = { λ _ r. r ≡ no_memory };

    fn from(_value: AllocError) -> Refusal {
        Refusal::from(Cause::NoMemory)
    }
}

impl<T: Drop> From<AllocFailed<T>> for Refusal {
    ghost from_gives = { λ _ r. r ≡ no_memory };

    fn from(value: AllocFailed<T>) -> Refusal {
        Refusal::from(AllocError::from(value))
    }
}
