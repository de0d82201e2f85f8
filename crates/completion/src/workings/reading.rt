// Reading the chain of a line.
ghost use Rattle.std.specs.Prelude.{◌≡◌, ◌+◌, ◌<◌, ◌≤◌, length, take, vec_len, slice_index_or};
ghost use Rattle.std.specs.Option.{option_map};
ghost use Rattle.worksheet.specs.declared.line.Line.{Line};
ghost use Rattle.worksheet.specs.Derivations.{lengths};
ghost use Rattle.worksheet.specs.Claims.{nth};
ghost use Rattle.completion.specs.States.{held};

use crate::workings::Workings;

impl Workings {
    // Where the chain of the line at a place, counted from 0, begins in the row of all chain numbers.
    fn chain_start(&self, place: usize) -> usize
        requires { place ≤ vec_len self.now.lines }
        ensures { result ≡ lengths (take place self.now.lines.items) }
    {
        self.lines[..place]
            .iter()
            .map(|line| line.length as usize)
            .sum()
    }

    // The chain of the added line at a place, counted from 0, if there is one.
    pub fn line_chain(&self, place: usize) -> Option<&[i16]>
        ensures { option_map (λ x. x.now) result ≡ option_map (λ d. d.chain) (nth (held self.now).added place) }
    {
        if place >= self.lines.len() {
            return None;
        }
        let start = self.chain_start(place);
        let line = self.lines[place];
        let end = start + line.length as usize;
        Some(&self.chain[start..end])
    }
}
