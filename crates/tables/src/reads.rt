ghost use Rattle.std.specs.Prelude.{◌≡◌, ◌≤◌, length};
ghost use Rattle.tables.specs.Types.{type_of, fields_of};
ghost use Rattle.tables.specs.Terms.{term_of, with_term};
ghost use Rattle.tables.specs.Contents.{name_at, type_at, entry_at};

use crate::ids::*;
use crate::part::part;
use crate::storage::*;
use crate::term::*;
use crate::term_type::*;

impl Tables {
    // The bytes of a name; none past the end.
    pub fn name(&self, n: NameId) -> &[u8]
        ensures value { result.now ≡ name_at self.now n.0 }
        ensures fits { length result.now ≤ self.now.bytes }
    {
        match self.names.held.get(usize::from(n.0)) {
            Some(span) => part(&self.bytes.held, *span),
            None => &[],
        }
    }

    // The type of a number; Bool past the end.
    pub fn term_type(&self, t: TypeId) -> TermType<&[FieldType]>
        ensures value { type_of result ≡ type_at self.now t.0 }
        ensures fits { length (fields_of (type_of result)) ≤ self.now.lists }
    {
        let fields = self.fields.held.as_slice();
        match self.types.held.get(usize::from(t.0)) {
            Some(cell) => cell.map_fields(|span| part(fields, span)),
            None => TermType::Bool,
        }
    }

    // What is held at the number of a term; false past the end.
    pub fn term(&self, t: TermId) -> Entry<TermRef<'_>>
        ensures { with_term term_of result ≡ entry_at self.now t.0 }
    {
        let elements = self.elements.held.as_slice();
        let attributes = self.attributes.held.as_slice();
        let patterns = self.patterns.held.as_slice();
        match self.terms.held.get(usize::from(t.0)) {
            Some(entry) => Entry {
                term: entry.term.map_lists(
                    |span| part(elements, span),
                    |span| part(attributes, span),
                    |span| part(patterns, span),
                ),
                ty: entry.ty,
                literal: entry.literal,
            },
            None => Entry {
                term: Term::Prim(TermPrim::Bool(false)),
                ty: TypeId(0),
                literal: true,
            },
        }
    }
}
