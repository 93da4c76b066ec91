ghost use Rattle.std.specs.Prelude.{◌≡◌, ◌-◌};
ghost use Rattle.tables.specs.Ranges.{Smaller, IsLimited};
ghost use Rattle.tables.specs.Contents.{in_use};

use crate::capacities::*;
use crate::storage::*;

impl Tables {
    // How many list cells are free.
    pub(crate) fn free_lists(&self) -> usize
        ensures { result ≡ self.now.capacities.lists - self.now.lists }
    {
        self.fields.capacity - self.in_use().lists
    }

    // The capacities that the tables were opened with.
    pub fn capacities(&self) -> Capacities
        ensures value { result ≡ self.now.capacities }
        ensures limited { IsLimited result }
    {
        Capacities {
            terms: self.terms.capacity,
            types: self.types.capacity,
            names: self.names.capacity,
            bytes: self.bytes.capacity,
            lists: self.fields.capacity,
            rows: self.rows,
        }
    }

    // How many cells of each table are in use.
    pub fn in_use(&self) -> Capacities
        ensures value { result ≡ in_use self.now }
        ensures fits { Smaller result self.now.capacities }
    {
        Capacities {
            terms: self.terms.held.len(),
            types: self.types.held.len(),
            names: self.names.held.len(),
            bytes: self.bytes.held.len(),
            lists: self.fields.held.len()
                + (self.elements.held.len()
                    + (self.attributes.held.len() + self.patterns.held.len())),
            rows: 0,
        }
    }
}
