ghost use Rattle.std.specs.Prelude.{◌≡◌};
ghost use Rattle.tables.specs.Contents.{literal_at, literal_of};
ghost use Rattle.tables.specs.Terms.{term_of};

use crate::ids::*;
use crate::storage::*;
use crate::term::*;

impl Tables {
    fn is_literal(&self, t: TermId) -> bool
        ensures { result ≡ literal_at self.now t }
    {
        self.term(t).literal
    }

    // Whether a term that may not be entered yet is literal.
    pub fn literal(&self, term: TermRef) -> bool
        ensures { result ≡ literal_of self.now (term_of term.entry) }
    {
        match term {
            Term::Prim(_) | Term::None(_) => true,
            Term::Some(t) => self.is_literal(t),
            Term::Set(_, elements) => elements.iter().all(|t| self.is_literal(*t)),
            Term::Record(fields) => fields.iter().all(|f| self.is_literal(f.term)),
            _ => false,
        }
    }
}
