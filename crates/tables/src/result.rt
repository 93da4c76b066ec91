ghost use Rattle.std.specs.Prelude.{Some};
ghost use Rattle.tables.specs.Words.{table_word, refusal_word};

use crate::ids::*;
use std::fmt;

// The tables of a workbench. `Full` names one of them.
#[derive(Clone, Copy, PartialEq, Eq, Debug)]
pub enum Table {
    Terms,
    Types,
    Names,
    Lists,
    Rows,
}

impl fmt::Display for Table {
    ghost output = { λ t. Some (table_word t) };

    fn fmt<W: fmt::Write>(&self, f: &mut fmt::Formatter<W>) -> fmt::Result {
        match self {
            Table::Terms => write!(f, "terms"),
            Table::Types => write!(f, "types"),
            Table::Names => write!(f, "names"),
            Table::Lists => write!(f, "lists"),
            Table::Rows => write!(f, "rows"),
        }
    }
}

// Why a call is refused.
#[derive(Clone, Copy, PartialEq, Eq, Debug)]
pub enum CompileError {
    NoSuchEntityType(NameId),
    NoSuchAttribute(NameId),
    TypeError,
    UnsupportedFeature,
    Full(Table),
    BadInput,
    TooDeep,
    NotCovered,
    NotBoolean,
    BadRow,
    // No memory: only where memory is reserved, so never after a workbench is open.
    NoMemory,
}

// The word alone: the name of a missing type or attribute is in the tables.
impl fmt::Display for CompileError {
    ghost output = { λ e. Some (refusal_word e) };

    fn fmt<W: fmt::Write>(&self, f: &mut fmt::Formatter<W>) -> fmt::Result {
        match self {
            CompileError::NoSuchEntityType(_) => write!(f, "NoSuchEntityType"),
            CompileError::NoSuchAttribute(_) => write!(f, "NoSuchAttribute"),
            CompileError::TypeError => write!(f, "TypeError"),
            CompileError::UnsupportedFeature => write!(f, "UnsupportedFeature"),
            CompileError::Full(_) => write!(f, "Full"),
            CompileError::BadInput => write!(f, "BadInput"),
            CompileError::TooDeep => write!(f, "TooDeep"),
            CompileError::NotCovered => write!(f, "NotCovered"),
            CompileError::NotBoolean => write!(f, "NotBoolean"),
            CompileError::BadRow => write!(f, "BadRow"),
            CompileError::NoMemory => write!(f, "NoMemory"),
        }
    }
}
