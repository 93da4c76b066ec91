ghost use Rattle.std.specs.Prelude.{◌≡◌};
ghost use Rattle.tables.specs.Types.{type_of};
ghost use Rattle.tables.specs.Terms.{term_of};
ghost use Rattle.tables.specs.Kinds.{Now, enter_name, enter_type, enter_term};

use crate::hold_names::*;
use crate::hold_terms::*;
use crate::hold_types::*;
use crate::ids::*;
use crate::result::*;
use crate::storage::*;
use crate::structure::*;
use crate::term::*;
use crate::term_type::*;

// Two calls and not one that is generic: that one would make the trait `Structure` public, and with it `put`, which may
// be called only where there is room.
impl Tables {
    // The number of a name, which is entered where it is not held yet.
    #[tactic(auto, unfolding(crate::specs::Kinds::enter_name, crate::specs::Kinds::enter, crate::specs::Kinds::find))]
    pub fn enter_name(&mut self, bytes: &[u8]) -> Result<NameId, CompileError>
        ensures { Now (enter_name bytes.now self.old) result self.new }
    {
        Ok(NameId(enter(self, &Name { bytes })?))
    }

    // The number of a type, which is entered where it is not held yet.
    #[tactic(auto, unfolding(crate::specs::Kinds::enter_type, crate::specs::Kinds::enter, crate::specs::Kinds::find))]
    pub fn enter_type(&mut self, t: TermType<&[FieldType]>) -> Result<TypeId, CompileError>
        ensures { Now (enter_type (type_of t.entry) self.old) result self.new }
    {
        Ok(TypeId(enter(self, &t)?))
    }

    // The number of a term of a type, which is entered where it is not held yet.
    #[tactic(auto, unfolding(crate::specs::Kinds::enter_term, crate::specs::Kinds::enter, crate::specs::Kinds::find))]
    pub fn enter_term(&mut self, term: TermRef, ty: TypeId) -> Result<TermId, CompileError>
        ensures { Now (enter_term (term_of term.entry) ty self.old) result self.new }
    {
        let literal = self.literal(term);
        Ok(TermId(enter(self, &Entry { term, ty, literal })?))
    }
}
