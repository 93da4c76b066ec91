// Why a line is not carried out.
ghost use Rattle.std.specs.Prelude.{◌≡◌};
ghost use Rattle.tables.specs.declared.result.CompileError.TheVariants.{NoMemory};
ghost use Rattle.script.specs.declared.fault.Fault.TheVariants.{Refused as Refusal};

use std::alloc::{AllocError, AllocFailed};
use tables::result::*;

// Where a line stops being one: the column, from 1, of the first byte that no line has there, or the
// column past the last byte where more is missing.
#[derive(Clone, Copy, PartialEq, Eq, Debug)]
pub struct Bad {
    pub column: usize,
    pub message: &'static str,
}

#[derive(Clone, Copy)]
pub enum Fault {
    // The line is not in the form, and nothing has changed.
    Bad(Bad),
    Refused(CompileError),
}

impl Fault {
    pub fn bad(column: usize, message: &'static str) -> Fault {
        Fault::Bad(Bad { column, message })
    }
}

impl From<CompileError> for Fault {
    ghost from_gives = { λ e r. r ≡ Refusal e };

    fn from(error: CompileError) -> Fault {
        Fault::Refused(error)
    }
}

impl From<AllocError> for Fault {
    ghost from_gives = { λ _ r. r ≡ Refusal NoMemory };

    fn from(_e: AllocError) -> Fault {
        Fault::Refused(CompileError::NoMemory)
    }
}

impl<T: Drop> From<AllocFailed<T>> for Fault {
    ghost from_gives = { λ _ r. r ≡ Refusal NoMemory };

    fn from(_e: AllocFailed<T>) -> Fault {
        Fault::Refused(CompileError::NoMemory)
    }
}
