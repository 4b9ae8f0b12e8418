// A mark: the epoch that last touched a row, and the start epoch and commit number of the set that did.
ghost use Rattle.std.specs.Prelude.{◌≡◌};
ghost use Rattle.rules.specs.Numbers.{mark_of, precedes, earlier};

use std::cmp::Reverse;

#[derive(Clone, Copy)]
pub struct Mark {
    pub cen: u32,
    pub sen: u32,
    pub csn: u64,
}

impl Mark {
    // The mark of a row that no epoch has touched.
    pub const FRESH: Mark = Mark {
        cen: 0,
        sen: 0,
        csn: 0,
    };

    pub fn new(cen: u32, sen: u32, csn: u64) -> Self
        ensures { result ≡ mark_of cen sen csn }
    {
        Self { cen, sen, csn }
    }

    #[tactic(auto, unfolding(crate::specs::Numbers::precedes))]
    pub fn precedes(self, other: Mark) -> bool
        ensures { result ≡ precedes self other }
    {
        (self.cen, Reverse(self.sen), self.csn) < (other.cen, Reverse(other.sen), other.csn)
    }

    #[tactic(auto, unfolding(crate::specs::Numbers::earlier))]
    pub fn earlier(self, other: Mark) -> Mark
        ensures { result ≡ earlier self other }
    {
        if other.precedes(self) { other } else { self }
    }
}
