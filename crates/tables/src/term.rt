ghost use Rattle.std.specs.Prelude.{◌≡◌};
ghost use Rattle.tables.specs.Terms.{MapsPattern, MapsLists, term_of, elements_of, attributes_of, pattern_of, list_cells};

use crate::ids::*;

// A variable.
#[derive(Clone, Copy, PartialEq, Eq, Debug)]
pub struct TermVar {
    pub id: NameId,
    pub ty: TypeId,
}

// An entity: the name of its type, and its id.
#[derive(Clone, Copy, PartialEq, Eq, Debug)]
pub struct EntityUid {
    pub ty: NameId,
    pub id: NameId,
}

// A value of an extension type: a signed 64-bit number.
#[derive(Clone, Copy, PartialEq, Eq, Debug)]
pub enum Ext {
    Decimal(i64),
    Datetime(i64),
    Duration(i64),
}

// A literal that has no part.
#[derive(Clone, Copy, PartialEq, Eq, Debug)]
pub enum TermPrim {
    Bool(bool),
    // A 64-bit number.
    Bitvec(i64),
    String(NameId),
    Entity(EntityUid),
    Ext(Ext),
}

// An uninterpreted function.
#[derive(Clone, Copy, PartialEq, Eq, Debug)]
pub struct Uuf {
    pub id: NameId,
    pub arg: TypeId,
    pub out: TypeId,
}

// Operators of one argument. `P` is how a pattern is given.
#[derive(Clone, Copy, PartialEq, Eq, Debug)]
pub enum Op1<P> {
    Not,
    Bvneg,
    Bvnego,
    OptionGet,
    RecordGet(NameId),
    StringLike(P),
    Uuf(Uuf),
    DatetimeVal,
    DurationVal,
}

// Operators of two arguments.
#[derive(Clone, Copy, PartialEq, Eq, Debug)]
pub enum Op2 {
    And,
    Or,
    Eq,
    Bvadd,
    Bvsub,
    Bvmul,
    Bvslt,
    Bvsle,
    Bvsaddo,
    Bvssubo,
    Bvsmulo,
    SetMember,
    SetSubset,
    SetInter,
}

// A field of a record.
#[derive(Clone, Copy, PartialEq, Eq, Debug)]
pub struct FieldTerm {
    pub name: NameId,
    pub term: TermId,
}

// A term; its parts are given by their numbers. `E`, `F` and `P` are how the elements of a set, the
// fields of a record and a pattern are given: slices of them, or spans of the list cells that hold
// them.
#[derive(Clone, Copy, PartialEq, Eq, Debug)]
pub enum Term<E, F, P> {
    Prim(TermPrim),
    Var(TermVar),
    None(TypeId),
    Some(TermId),
    Set(TypeId, E),
    Record(F),
    Unary(Op1<P>, TermId),
    Binary(Op2, TermId, TermId),
    Ite(TermId, TermId, TermId),
}

// A term with its lists as slices.
pub type TermRef<'a> = Term<&'a [TermId], &'a [FieldTerm], &'a [u16]>;

// A term as a table holds it: with its type, and whether it is literal, which is to say that it
// holds no variable and no operator.
#[derive(Clone, Copy, PartialEq, Eq, Debug)]
pub struct Entry<T> {
    pub term: T,
    pub ty: TypeId,
    pub literal: bool,
}

impl<P> Op1<P> {
    // The operator with its pattern given another way.
    fn map_pattern<Q, X: FnOnce(P) -> Q>(self, f: X) -> Op1<Q>
        requires { X.IsAlwaysCallable f }
        ensures { MapsPattern (X.post f) self result }
    {
        match self {
            Op1::Not => Op1::Not,
            Op1::Bvneg => Op1::Bvneg,
            Op1::Bvnego => Op1::Bvnego,
            Op1::OptionGet => Op1::OptionGet,
            Op1::RecordGet(name) => Op1::RecordGet(name),
            Op1::StringLike(pattern) => Op1::StringLike(f(pattern)),
            Op1::Uuf(function) => Op1::Uuf(function),
            Op1::DatetimeVal => Op1::DatetimeVal,
            Op1::DurationVal => Op1::DurationVal,
        }
    }
}

impl<E, F, P> Term<E, F, P> {
    // The term with its lists given another way.
    pub(crate) fn map_lists<E2, F2, P2, X: FnOnce(E) -> E2, Y: FnOnce(F) -> F2, Z: FnOnce(P) -> P2>(
        self,
        elements: X,
        fields: Y,
        pattern: Z,
    ) -> Term<E2, F2, P2>
        requires elements { X.IsAlwaysCallable elements }
        requires fields { Y.IsAlwaysCallable fields }
        requires pattern { Z.IsAlwaysCallable pattern }
        ensures { MapsLists (X.post elements) (Y.post fields) (Z.post pattern) self result }
    {
        match self {
            Term::Prim(literal) => Term::Prim(literal),
            Term::Var(v) => Term::Var(v),
            Term::None(ty) => Term::None(ty),
            Term::Some(t) => Term::Some(t),
            Term::Set(ty, x) => Term::Set(ty, elements(x)),
            Term::Record(x) => Term::Record(fields(x)),
            Term::Unary(op, t) => Term::Unary(op.map_pattern(pattern), t),
            Term::Binary(op, a, b) => Term::Binary(op, a, b),
            Term::Ite(g, a, b) => Term::Ite(g, a, b),
        }
    }
}

impl<'a> Term<&'a [TermId], &'a [FieldTerm], &'a [u16]> {
    // A set's elements; other terms have none.
    pub(crate) fn elements(self) -> &'a [TermId]
        ensures { result.now ≡ elements_of (term_of self.entry) }
    {
        match self {
            Term::Set(_, elements) => elements,
            _ => &[],
        }
    }

    // A record's fields; other terms have none.
    pub(crate) fn attributes(self) -> &'a [FieldTerm]
        ensures { result.now ≡ attributes_of (term_of self.entry) }
    {
        match self {
            Term::Record(fields) => fields,
            _ => &[],
        }
    }

    // How many list cells it takes.
    pub(crate) fn list_cells(self) -> usize
        ensures { result ≡ list_cells (term_of self.entry) }
    {
        match self {
            Term::Set(_, elements) => elements.len(),
            Term::Record(fields) => fields.len(),
            Term::Unary(Op1::StringLike(pattern), _) => pattern.len(),
            _ => 0,
        }
    }

    // The pattern of a test of a string; other terms have none.
    pub(crate) fn pattern(self) -> &'a [u16]
        ensures { result.now ≡ pattern_of (term_of self.entry) }
    {
        match self {
            Term::Unary(Op1::StringLike(pattern), _) => pattern,
            _ => &[],
        }
    }
}
