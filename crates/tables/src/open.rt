ghost use Rattle.std.specs.Prelude.{◌≡◌, true, MatchResult};
ghost use Rattle.tables.specs.declared.result.CompileError.TheVariants.{NoMemory};
ghost use Rattle.tables.specs.declared.term.Term.TheVariants.{Prim};
ghost use Rattle.tables.specs.declared.term.TermPrim.TheVariants.{Bool as Truth};
ghost use Rattle.tables.specs.Ranges.{in_range};
ghost use Rattle.tables.specs.Contents.{nameless};
ghost use Rattle.tables.specs.Opening.{Opened};

use crate::capacities::*;
use crate::cells::*;
use crate::ids::*;
use crate::result::*;
use crate::span::*;
use crate::storage::*;
use crate::term::*;
use crate::term_type::*;
use std::alloc::{AllocError, Global};

impl From<AllocError> for CompileError {
    ghost from_gives = { λ _ r. r ≡ NoMemory };

    fn from(_e: AllocError) -> CompileError {
        CompileError::NoMemory
    }
}

// A constant: its type is the first one.
fn truth(value: bool) -> Entry<Term<Span, Span, Span>>
    ensures { result ≡ record { term = Prim (Truth value); ty = record { 0 = 0 }; literal = true } }
{
    Entry {
        term: Term::Prim(TermPrim::Bool(value)),
        ty: TypeId(0),
        literal: true,
    }
}

// Tables with the constants and their type and no name, and with all the memory that they can ever
// need.
#[tactic(auto, using(crate::proofs::Ranges::ranged))]
fn reserve(heap: Global, capacities: Capacities) -> Result<Tables, CompileError>
    requires { in_range capacities ≡ true }
    ensures { MatchResult result (λ t. t ≡ nameless capacities) (λ e. e ≡ NoMemory) }
{
    let mut terms = Cells::open(heap, capacities.terms)?;
    terms.push(truth(false));
    terms.push(truth(true));
    let mut types = Cells::open(heap, capacities.types)?;
    types.push(TermType::Bool);
    Ok(Tables {
        terms,
        types,
        names: Cells::open(heap, capacities.names)?,
        bytes: Cells::open(heap, capacities.bytes)?,
        fields: Cells::open(heap, capacities.lists)?,
        elements: Cells::open(heap, capacities.lists)?,
        attributes: Cells::open(heap, capacities.lists)?,
        patterns: Cells::open(heap, capacities.lists)?,
        rows: capacities.rows,
    })
}

impl Tables {
    // Tables that hold what every workbench starts with.
    pub fn open(heap: Global, capacities: Capacities) -> Result<Tables, CompileError>
        ensures { Opened capacities result }
    {
        if !capacities.in_range() {
            return Err(CompileError::BadInput);
        }
        let mut tables = reserve(heap, capacities)?;
        tables.enter_name(b"entity")?;
        tables.enter_name(b"tag")?;
        Ok(tables)
    }
}
