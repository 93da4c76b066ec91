ghost use Rattle.tables.specs.Kinds.{through, term_kind};
ghost use Rattle.tables.specs.Terms.{term_of, with_term};

use crate::ids::*;
use crate::result::*;
use crate::storage::*;
use crate::structure::*;
use crate::term::*;

impl Structure for Entry<TermRef<'_>> {
    ghost kind = { through (with_term term_of) term_kind };

    fn count(&self, tables: &Tables) -> u16 {
        tables.terms.len()
    }

    fn held(&self, tables: &Tables, n: u16) -> bool {
        tables.term(TermId(n)).term == self.term
    }

    fn lacking(&self, tables: &Tables) -> Option<Table> {
        if tables.terms.free() == 0 {
            Some(Table::Terms)
        } else if self.term.list_cells() > tables.free_lists() {
            Some(Table::Lists)
        } else {
            None
        }
    }

    fn put(&self, tables: &mut Tables) {
        let elements = tables.elements.extend(self.term.elements());
        let attributes = tables.attributes.extend(self.term.attributes());
        let pattern = tables.patterns.extend(self.term.pattern());
        tables.terms.push(Entry {
            term: self
                .term
                .map_lists(|_| elements, |_| attributes, |_| pattern),
            ty: self.ty,
            literal: self.literal,
        });
    }
}
