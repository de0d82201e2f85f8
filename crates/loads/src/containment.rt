// When a load contains another.
ghost use Rattle.std.specs.Prelude.{◌≡◌};
ghost use Rattle.loads.specs.Tests.{contains};

use crate::Load;

impl Load {
    // No count of this load is smaller than the other's. An article that only the other has settles it; otherwise all eight counts are compared at
    // once, and `lack` gathers what is lacking, bit by bit.
    pub fn contains(&self, other: &Load) -> bool
        ensures { result ≡ contains self.now other.now }
    {
        if self.presence & other.presence != other.presence {
            return false;
        }
        let mut lack = 0;
        for (mine, theirs) in self.counts.iter().zip(&other.counts) {
            lack |= theirs.saturating_sub(*mine);
        }
        lack == 0
    }
}
