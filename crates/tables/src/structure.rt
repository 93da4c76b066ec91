ghost use Rattle.std.specs.Prelude.{◌≡◌, None};
ghost use Rattle.tables.specs.Kinds.{Kind, Now, find as find_s, enter as enter_s};

use crate::result::*;
use crate::storage::*;

// What the tables hold once: a name or a type.
pub(crate) trait Structure {
    ghost kind: { Kind Self };

    // How many of its kind the tables hold.
    fn count(&self, tables: &Tables) -> u16
        ensures { result ≡ kind.count tables.now };

    // Whether this one is held at a number.
    fn held(&self, tables: &Tables, n: u16) -> bool
        ensures { result ≡ kind.held self.now tables.now n };

    // The table that has too few free cells for it, the one with the lowest number.
    fn lacking(&self, tables: &Tables) -> Option<Table>
        ensures { result ≡ kind.lacking self.now tables.now };

    // Puts it behind the others.
    fn put(&self, tables: &mut Tables)
        requires { kind.lacking self.now tables.old ≡ None }
        ensures { tables.new ≡ kind.put self.now tables.old };
}

// The number at which a structure is held.
#[tactic(auto, unfolding(crate::specs::Kinds::find))]
pub(crate) fn find<S: Structure>(tables: &Tables, s: &S) -> Option<u16>
    ensures { result ≡ find_s S.Structure.kind s.now tables.now }
{
    (0..s.count(tables)).find(|n| s.held(tables, *n))
}

// The number of a structure, which is put behind where it is not held yet.
#[tactic(auto, unfolding(crate::specs::Kinds::enter))]
pub(crate) fn enter<S: Structure>(tables: &mut Tables, s: &S) -> Result<u16, CompileError>
    ensures { Now (enter_s S.Structure.kind s.now tables.old) result tables.new }
{
    if let Some(n) = find(tables, s) {
        return Ok(n);
    }
    if let Some(table) = s.lacking(tables) {
        return Err(CompileError::Full(table));
    }
    let n = s.count(tables);
    s.put(tables);
    Ok(n)
}
