// The limits of a capacity.
ghost use Rattle.completion.specs.Capacities.{Limits};

use crate::capacity::{Capacity, NoCapacity};

impl TryFrom<usize> for Capacity {
    type Error = NoCapacity;

    ghost try_from_gives = { Limits };

    fn try_from(rules: usize) -> Result<Capacity, NoCapacity> {
        if rules == 0 || rules > 128 {
            return Err(NoCapacity(rules));
        }
        Ok(Capacity { rules })
    }
}
