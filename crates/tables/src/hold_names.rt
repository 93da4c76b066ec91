ghost use Rattle.tables.specs.Kinds.{through, name_kind};

use crate::ids::*;
use crate::result::*;
use crate::storage::*;
use crate::structure::*;

// A name, to be looked for or entered.
#[derive(Clone, Copy)]
pub(crate) struct Name<'a> {
    pub(crate) bytes: &'a [u8],
}

impl Structure for Name<'_> {
    ghost kind = { through (λ s. s.bytes.now) name_kind };

    fn count(&self, tables: &Tables) -> u16 {
        tables.names.len()
    }

    fn held(&self, tables: &Tables, n: u16) -> bool {
        tables.name(NameId(n)) == self.bytes
    }

    fn lacking(&self, tables: &Tables) -> Option<Table> {
        if tables.names.free() > 0 && self.bytes.len() <= tables.bytes.free() {
            None
        } else {
            Some(Table::Names)
        }
    }

    fn put(&self, tables: &mut Tables) {
        let span = tables.bytes.extend(self.bytes);
        tables.names.push(span);
    }
}
