// The workbench that a script works on.
ghost use Rattle.std.specs.Prelude.{◌≡◌, Some, None, MatchOption, OnErr, is_ok};
ghost use Rattle.tables.specs.Types.{type_of};
ghost use Rattle.tables.specs.Calls.{name_call, type_call};
ghost use Rattle.script.specs.Held.{held, On, is_draft};

use std::mem;
use tables::ids::*;
use tables::result::*;
use tables::storage::*;
use tables::term_type::*;
use workbench::stages::*;

#[derive(Drop)]
pub enum State {
    Draft(Draft),
    Sealed(Sealed),
    // While a draft is moved out to be sealed; there is nothing to work on. An Option in its place
    // would have the same third case, with every call one level deeper.
    Closed,
}

// Only a draft can be sealed.
#[derive(Clone, Copy, PartialEq, Eq, Debug)]
pub struct AlreadySealed;

// The calls of both stages, each once. A closure over the workbench in place of the three matches would have to be generic
// in the stage, which no closure is.
impl State {
    pub fn name(&mut self, bytes: &[u8]) -> Result<NameId, CompileError>
        ensures { On (name_call bytes.now) (held self.old) result (held self.new) }
    {
        match self {
            State::Draft(draft) => draft.name(bytes),
            State::Sealed(sealed) => sealed.name(bytes),
            State::Closed => Err(CompileError::NoMemory),
        }
    }

    pub fn term_type(&mut self, t: TermType<&[FieldType]>) -> Result<TypeId, CompileError>
        ensures { On (type_call (type_of t.entry)) (held self.old) result (held self.new) }
    {
        match self {
            State::Draft(draft) => draft.term_type(t),
            State::Sealed(sealed) => sealed.term_type(t),
            State::Closed => Err(CompileError::NoMemory),
        }
    }

    pub fn tables(&self) -> Option<&Tables>
        ensures { MatchOption result (held self.now ≡ None) (λ t. held self.now ≡ Some t.now) }
    {
        match self {
            State::Draft(draft) => Some(draft.tables()),
            State::Sealed(sealed) => Some(sealed.tables()),
            State::Closed => None,
        }
    }

    // Seals a draft.
    pub fn seal(&mut self) -> Result<(), AlreadySealed>
        ensures test { is_ok result ≡ is_draft self.old }
        ensures held { held self.new ≡ held self.old }
        ensures same { OnErr result (self.new ≡ self.old) }
    {
        match mem::replace(self, State::Closed) {
            State::Draft(draft) => {
                *self = State::Sealed(draft.seal());
                Ok(())
            }
            other => {
                *self = other;
                Err(AlreadySealed)
            }
        }
    }
}
