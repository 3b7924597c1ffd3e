ghost use Rattle.std.specs.Prelude.{◌≡◌};
ghost use Rattle.script_types.specs.declared.end.KindEnd.TheVariants as kind_end;
ghost use Rattle.script_types.specs.declared.end.LowerEnd.TheVariants as lower_end;

use crate::fault::{MeaningFault, MeaningKind};
use std::alloc::{AllocError, AllocFailed};
use thiserror::Error;

/// Why an expression or a statement is not settled.
#[derive(Clone, Copy, Debug)]
pub enum KindEnd {
    /// Its first fault.
    Meaning(MeaningKind),
    /// Want of memory.
    Memory,
}

impl From<AllocError> for KindEnd {
    ghost from_gives = { λ _ e. e ≡ kind_end.Memory };

    fn from(_error: AllocError) -> KindEnd {
        KindEnd::Memory
    }
}

impl<T: Drop> From<AllocFailed<T>> for KindEnd {
    ghost from_gives = { λ _ e. e ≡ kind_end.Memory };

    fn from(_error: AllocFailed<T>) -> KindEnd {
        KindEnd::Memory
    }
}

/// Why a script gave no program.
#[derive(Clone, Copy, Debug, PartialEq, Eq, Error)]
pub enum LowerEnd {
    /// Its first fault of meaning.
    #[error(transparent)]
    Meaning(MeaningFault),
    /// There was no memory for the program.
    #[error("out of memory")]
    Memory,
}

impl From<AllocError> for LowerEnd {
    ghost from_gives = { λ _ e. e ≡ lower_end.Memory };

    fn from(_error: AllocError) -> LowerEnd {
        LowerEnd::Memory
    }
}

impl<T: Drop> From<AllocFailed<T>> for LowerEnd {
    ghost from_gives = { λ _ e. e ≡ lower_end.Memory };

    fn from(_error: AllocFailed<T>) -> LowerEnd {
        LowerEnd::Memory
    }
}
