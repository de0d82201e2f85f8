// A load in a file: its presence byte, then the counts of the articles that are present.
ghost use Rattle.swapfile.specs.StoredLoads.{load_bytes};

use crate::written::Written;
use loads::Load;

impl Written for Load {
    ghost bytes = { load_bytes };

    fn size(&self) -> usize {
        1 + 2 * self.kinds() as usize
    }

    fn write(&self, out: &mut [u8]) {
        out[0] = self.presence();
        let mut at = 1;
        for count in self.counts() {
            if *count > 0 {
                count.write(&mut out[at..at + 2]);
                at += 2;
            }
        }
    }
}
