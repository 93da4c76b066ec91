ghost use Rattle.tables.specs.Kinds.{through, type_kind};
ghost use Rattle.tables.specs.Types.{type_of};

use crate::ids::*;
use crate::result::*;
use crate::storage::*;
use crate::structure::*;
use crate::term_type::*;

impl Structure for TermType<&[FieldType]> {
    ghost kind = { through type_of type_kind };

    fn count(&self, tables: &Tables) -> u16 {
        tables.types.len()
    }

    fn held(&self, tables: &Tables, n: u16) -> bool {
        tables.term_type(TypeId(n)) == *self
    }

    fn lacking(&self, tables: &Tables) -> Option<Table> {
        if tables.types.free() == 0 {
            Some(Table::Types)
        } else if self.fields().len() > tables.free_lists() {
            Some(Table::Lists)
        } else {
            None
        }
    }

    fn put(&self, tables: &mut Tables) {
        let span = tables.fields.extend(self.fields());
        tables.types.push(self.map_fields(|_| span));
    }
}
