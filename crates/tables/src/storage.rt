use crate::cells::*;
use crate::ids::*;
use crate::span::*;
use crate::term::*;
use crate::term_type::*;
use std::marker::Model;

// The tables of a workbench, seen as what they hold. The bytes of names and the lists of types and terms lie in cells that all
// share, at spans of them, and not in a String or a Vec each: no memory is asked for once the tables are open.
// The lengths are those of `Capacities::LARGEST`, written out: a const argument cannot be computed.
#[derive(Drop)]
pub struct Tables {
    pub(crate) terms: Cells<Entry<Term<Span, Span, Span>>, 4096>,
    pub(crate) types: Cells<TermType<Span>, 512>,
    pub(crate) names: Cells<Span, 1024>,
    // The bytes of all names.
    pub(crate) bytes: Cells<u8, 16384>,
    // The list cells: the fields of record types, the elements of sets, the fields of records, and patterns. Together
    // they are at most as many as the capacity that each of the four has.
    pub(crate) fields: Cells<FieldType, 8192>,
    pub(crate) elements: Cells<TermId, 8192>,
    pub(crate) attributes: Cells<FieldTerm, 8192>,
    pub(crate) patterns: Cells<u16, 8192>,
    // How many rows may be declared.
    pub(crate) rows: usize,
}

impl Model for Tables {
    ghost use Rattle.tables.specs.Contents.{Contents};

    ghost Value = { Contents };

    ghost use Rattle.tables.specs.Storage.{contents, IsStorage};

    ghost view = { contents };

    ghost invariant = { IsStorage };
}
