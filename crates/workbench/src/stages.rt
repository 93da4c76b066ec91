ghost use Rattle.std.specs.Prelude.{◌≡◌};
ghost use Rattle.tables.specs.Types.{type_of};
ghost use Rattle.tables.specs.Opening.{Opened};
ghost use Rattle.tables.specs.Kinds.{Now};
ghost use Rattle.tables.specs.Calls.{name_call, type_call};
ghost use Rattle.laws.specs.Sound.{HeldOnce};
ghost use Rattle.workbench.specs.Runs.{call_of, step};
ghost use Rattle.workbench.specs.Reached.{Reached};

use crate::calls::*;
use std::alloc::Global;
use std::marker::{Model, PhantomData};
use tables::capacities::*;
use tables::ids::*;
use tables::result::*;
use tables::storage::*;
use tables::term_type::*;

// The most bytes that a name may have.
const MAX_NAME: usize = 255;

// The stage at which rows can still be declared.
#[derive(Clone, Copy, PartialEq, Eq, Debug)]
pub struct Drafting;

// The stage at which no row can be declared any more.
#[derive(Clone, Copy, PartialEq, Eq, Debug)]
pub struct Settled;

// A workbench at a stage. Some run leads to its tables.
#[derive(Drop)]
pub struct Workbench<S> {
    tables: Tables,
    stage: PhantomData<S>,
}

impl<S> Model for Workbench<S> {
    ghost use Rattle.tables.specs.Contents.{Contents};
    ghost use Rattle.workbench.specs.Reached.{Reached};

    ghost Value = { Contents };

    ghost view = { λ a. a.tables };

    ghost invariant = { λ a. Reached a.tables };
}

pub type Draft = Workbench<Drafting>;

pub type Sealed = Workbench<Settled>;

impl Workbench<Drafting> {
    // A new workbench.
    #[tactic(auto, using(crate::proofs::Reach::opened))]
    pub fn open(heap: Global, capacities: Capacities) -> Result<Draft, CompileError>
        ensures { Opened capacities result }
    {
        let tables = Tables::open(heap, capacities)?;
        Ok(Workbench {
            tables,
            stage: PhantomData,
        })
    }

    // Ends the declaration of rows.
    pub fn seal(self) -> Sealed
        ensures { result ≡ self }
    {
        let Workbench { tables, .. } = self;
        Workbench {
            tables,
            stage: PhantomData,
        }
    }
}

impl<S> Workbench<S> {
    // Enters a name.
    #[tactic(auto, unfolding(tables::specs::Calls::name_call))]
    pub fn name(&mut self, bytes: &[u8]) -> Result<NameId, CompileError>
        ensures { Now (name_call bytes.now self.old) result self.new }
    {
        if bytes.len() > MAX_NAME {
            return Err(CompileError::BadInput);
        }
        self.tables.enter_name(bytes)
    }

    // Enters a type whose parts are entered already.
    #[tactic(auto, unfolding(tables::specs::Calls::type_call))]
    pub fn term_type(&mut self, t: TermType<&[FieldType]>) -> Result<TypeId, CompileError>
        ensures { Now (type_call (type_of t.entry) self.old) result self.new }
    {
        if !self.tables.fits(t) {
            return Err(CompileError::BadInput);
        }
        self.tables.enter_type(t)
    }

    // What the workbench holds: the tables of some run, with each structure under one number.
    #[tactic(auto, using(crate::proofs::LawOfRuns::held_once))]
    pub fn tables(&self) -> &Tables
        ensures value { result.now ≡ self.now }
        ensures reached { Reached result.now }
        ensures once { HeldOnce result.now }
    {
        &self.tables
    }

    // One call of a list.
    #[tactic(auto, unfolding(crate::specs::Runs::step))]
    pub fn call(&mut self, call: Call) -> Result<Reply, CompileError>
        ensures { Now (step (call_of call.entry) self.old) result self.new }
    {
        match call {
            Call::Name(bytes) => Ok(Reply::Name(self.name(bytes)?)),
            Call::Type(t) => Ok(Reply::Type(self.term_type(t)?)),
        }
    }
}
