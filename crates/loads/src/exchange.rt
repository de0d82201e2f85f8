// Taking one load out of a load and putting another in.
ghost use Rattle.std.specs.Prelude.{◌≡◌, ◌%◌, map, nat_le};
ghost use Rattle.std.specs.List.{list_all, range_with_len};
ghost use Rattle.loads.specs.Loads.{shared};
ghost use Rattle.loads.specs.Exchange.{new, exchanged};

use crate::Load;
use std::array;

// Why an exchange is not made: the load lacks what is taken out, or a count would pass 65,535.
#[derive(Clone, Copy, PartialEq, Eq, Debug)]
pub enum ExchangeFault {
    Lacks,
    Overflow,
}

// No count passes 65,535. All are looked at, so that there is no branch for each.
fn fit(counts: &[u32; 8]) -> bool
    ensures { result ≡ list_all (λ n. nat_le n 65535) counts.now }
{
    let mut fit = true;
    for count in counts.iter() {
        fit &= *count <= 65535;
    }
    fit
}

// The low halves of counts: the counts themselves where they fit.
fn low_halves(counts: [u32; 8]) -> [u16; 8]
    ensures { result ≡ map (λ n. n % 65536) counts }
{
    counts.map(|count| (count % 65536) as u16)
}

impl Load {
    // The counts of this load less `out`, with `into` added. Where this load lacks some of `out`, they are of no use.
    fn new_counts(&self, out: &Load, into: &Load) -> [u32; 8]
        ensures { result ≡ map (new self.now out.now into.now) (range_with_len 0 8) }
    {
        array::from_fn(|i| {
            u32::from(self.counts[i].saturating_sub(out.counts[i])) + u32::from(into.counts[i])
        })
    }

    // This load less `out`, with `into` added. Each new count is worked out in 32 bits, and all eight before any is judged.
    pub fn exchange(&self, out: &Load, into: &Load) -> Result<Load, ExchangeFault>
        ensures { result ≡ exchanged self.now out.now into.now }
    {
        if !self.contains(out) {
            return Err(ExchangeFault::Lacks);
        }
        let counts = self.new_counts(out, into);
        if !fit(&counts) {
            return Err(ExchangeFault::Overflow);
        }
        Ok(Load::from(low_halves(counts)))
    }

    // The smaller count of each article: what both loads contain.
    pub fn shared(&self, other: &Load) -> Load
        ensures { result ≡ shared self.now other.now }
    {
        Load::from(array::from_fn(|i| self.counts[i].min(other.counts[i])))
    }
}
