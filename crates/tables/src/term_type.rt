ghost use Rattle.std.specs.Prelude.{◌≡◌};
ghost use Rattle.tables.specs.Spans.{MapsFields};
ghost use Rattle.tables.specs.Types.{type_of, fields_of};

use crate::ids::*;

// A field of a record type.
#[derive(Clone, Copy, PartialEq, Eq, Debug)]
pub struct FieldType {
    pub name: NameId,
    pub ty: TypeId,
}

// A type; its parts are given by their numbers. `F` is how a record's fields are given: a slice of
// them, or a span of the list cells that hold them.
#[derive(Clone, Copy, PartialEq, Eq, Debug)]
pub enum TermType<F> {
    Bool,
    // The 64-bit Bitvec.
    Long,
    String,
    Decimal,
    Datetime,
    Duration,
    Entity(NameId),
    Set(TypeId),
    Option(TypeId),
    Record(F),
}

impl<F> TermType<F> {
    // The type with its fields given another way.
    pub(crate) fn map_fields<G, M: FnOnce(F) -> G>(self, f: M) -> TermType<G>
        requires { M.IsAlwaysCallable f }
        ensures { MapsFields (M.post f) self result }
    {
        match self {
            TermType::Bool => TermType::Bool,
            TermType::Long => TermType::Long,
            TermType::String => TermType::String,
            TermType::Decimal => TermType::Decimal,
            TermType::Datetime => TermType::Datetime,
            TermType::Duration => TermType::Duration,
            TermType::Entity(n) => TermType::Entity(n),
            TermType::Set(t) => TermType::Set(t),
            TermType::Option(t) => TermType::Option(t),
            TermType::Record(fields) => TermType::Record(f(fields)),
        }
    }
}

impl<'a> TermType<&'a [FieldType]> {
    // A record's fields; other types have none.
    pub(crate) fn fields(self) -> &'a [FieldType]
        ensures { result.now ≡ fields_of (type_of self.entry) }
    {
        match self {
            TermType::Record(fields) => fields,
            _ => &[],
        }
    }
}
