ghost use Rattle.std.specs.Prelude.{◌≡◌};
ghost use Rattle.tables.specs.Ranges.{between, in_range};

// How many cells each table has; `bytes` are those of all names together.
#[derive(Clone, Copy, PartialEq, Eq, Debug)]
pub struct Capacities {
    pub terms: usize,
    pub types: usize,
    pub names: usize,
    pub bytes: usize,
    pub lists: usize,
    pub rows: usize,
}

// One of the six ranges. They are tested line by line: the fields have no order in which a loop could take them.
fn within(low: usize, high: usize, n: usize) -> bool
    ensures { result ≡ between low high n }
{
    (low..=high).contains(&n)
}

impl Capacities {
    // The smallest that a workbench may be opened with.
    pub const SMALLEST: Capacities = Capacities {
        terms: 2,
        types: 1,
        names: 2,
        bytes: 9,
        lists: 0,
        rows: 0,
    };

    // The largest.
    pub const LARGEST: Capacities = Capacities {
        terms: 4096,
        types: 512,
        names: 1024,
        bytes: 16384,
        lists: 8192,
        rows: 200,
    };

    // Whether a workbench may be opened with them.
    #[tactic(auto, unfolding(crate::specs::Ranges::in_range))]
    pub(crate) fn in_range(self) -> bool
        ensures { result ≡ in_range self }
    {
        within(Self::SMALLEST.terms, Self::LARGEST.terms, self.terms)
            && within(Self::SMALLEST.types, Self::LARGEST.types, self.types)
            && within(Self::SMALLEST.names, Self::LARGEST.names, self.names)
            && within(Self::SMALLEST.bytes, Self::LARGEST.bytes, self.bytes)
            && within(Self::SMALLEST.lists, Self::LARGEST.lists, self.lists)
            && within(Self::SMALLEST.rows, Self::LARGEST.rows, self.rows)
    }
}
