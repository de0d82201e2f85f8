// The two orders that have names.
ghost use Rattle.std.specs.Prelude.{◌≡◌};
ghost use Rattle.orders.specs.Named.{evenly, the_report, the_house};

use crate::bulk::Bulk;
use crate::listed::Listed;
use crate::weights::{WeightRow, Weights};

// Weights of 1 over listed.
pub type Report = Weights<Listed>;

// Weights of 1 over bulk.
pub type House = Weights<Bulk>;

// Weights of 1 over any order.
fn evenly<O>(below: O) -> Weights<O>
    ensures { result ≡ evenly below }
{
    Weights {
        row: WeightRow([1; 8]),
        below,
    }
}

pub fn report() -> Report
    ensures { result ≡ the_report }
{
    evenly(Listed)
}

pub fn house() -> House
    ensures { result ≡ the_house }
{
    evenly(Bulk)
}
