ghost use Rattle.std.specs.Prelude.{◌≡◌};
ghost use Rattle.std.specs.List.{list_all};
ghost use Rattle.tables.specs.Types.{type_of};
ghost use Rattle.tables.specs.Terms.{term_of};
ghost use Rattle.tables.specs.Shapes.{is_name, is_type, is_term, plain as is_plain, field_fits, ascending as are_ascending, fits as may_enter, prim_fits, op_fits, term_fits};

use crate::ids::*;
use crate::storage::*;
use crate::term::*;
use crate::term_type::*;

// `is_name` and `is_type` differ in their type alone; one generic in it would need a trait for one comparison.
impl Tables {
    // Whether the number points at an entered name.
    pub fn is_name(&self, n: NameId) -> bool
        ensures { result ≡ is_name self.now n }
    {
        usize::from(n.0) < self.names.held.len()
    }

    // Whether the number points at an entered type.
    pub fn is_type(&self, t: TypeId) -> bool
        ensures { result ≡ is_type self.now t }
    {
        usize::from(t.0) < self.types.held.len()
    }

    // Whether the number points at an entered term.
    pub fn is_term(&self, t: TermId) -> bool
        ensures { result ≡ is_term self.now t }
    {
        usize::from(t.0) < self.terms.held.len()
    }

    // Whether a set or an option may be of the type.
    fn plain(&self, t: TypeId) -> bool
        ensures { result ≡ is_plain self.now t }
    {
        self.is_type(t) && !matches!(self.term_type(t), TermType::Option(_))
    }

    fn field_fits(&self, f: FieldType) -> bool
        ensures { result ≡ field_fits self.now f }
    {
        self.is_name(f.name) && self.is_type(f.ty)
    }

    fn fields_fit(&self, fields: &[FieldType]) -> bool
        ensures { result ≡ list_all (field_fits self.now) fields.now }
    {
        fields.iter().all(|f| self.field_fits(*f))
    }

    // Whether the fields are ordered by their names, each name once.
    fn ascending(&self, fields: &[FieldType]) -> bool
        ensures { result ≡ are_ascending self.now fields.now }
    {
        fields.is_sorted_by(|f, g| self.name(f.name) < self.name(g.name))
    }

    // Whether a type may be entered.
    pub fn fits(&self, t: TermType<&[FieldType]>) -> bool
        ensures { result ≡ may_enter self.now (type_of t.entry) }
    {
        match t {
            TermType::Entity(n) => self.is_name(n),
            TermType::Set(t) | TermType::Option(t) => self.plain(t),
            TermType::Record(fields) => self.fields_fit(fields) && self.ascending(fields),
            _ => true,
        }
    }

    fn prim_fits(&self, literal: TermPrim) -> bool
        ensures { result ≡ prim_fits self.now literal }
    {
        match literal {
            TermPrim::String(n) => self.is_name(n),
            TermPrim::Entity(u) => self.is_name(u.ty) && self.is_name(u.id),
            _ => true,
        }
    }

    fn op_fits(&self, op: Op1<&[u16]>) -> bool
        ensures { result ≡ op_fits self.now op.entry }
    {
        match op {
            Op1::RecordGet(n) => self.is_name(n),
            Op1::Uuf(f) => self.is_name(f.id) && self.is_type(f.arg) && self.is_type(f.out),
            _ => true,
        }
    }

    // Whether the parts of a term are entered.
    pub fn term_fits(&self, term: TermRef) -> bool
        ensures { result ≡ term_fits self.now (term_of term.entry) }
    {
        match term {
            Term::Prim(literal) => self.prim_fits(literal),
            Term::Var(v) => self.is_name(v.id) && self.is_type(v.ty),
            Term::None(ty) => self.is_type(ty),
            Term::Some(t) => self.is_term(t),
            Term::Set(ty, elements) => self.is_type(ty)
                && elements.iter().all(|t| self.is_term(*t)),
            Term::Record(fields) => fields
                .iter()
                .all(|f| self.is_name(f.name) && self.is_term(f.term)),
            Term::Unary(op, t) => self.op_fits(op) && self.is_term(t),
            Term::Binary(_, a, b) => self.is_term(a) && self.is_term(b),
            Term::Ite(g, a, b) => self.is_term(g) && self.is_term(a) && self.is_term(b),
        }
    }
}
