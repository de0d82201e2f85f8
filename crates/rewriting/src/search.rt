// The search for a rule that fits.
ghost use Rattle.std.specs.Prelude.{◌≡◌, ◌<◌, length, IfSome};
ghost use Rattle.rewriting.specs.Reducing.{search};

use loads::Load;
use worksheet::rule::Rule;

// The place of the first rule that fits the load, counted from 0.
pub fn search(table: &[Rule], load: &Load) -> Option<usize>
    ensures is { result ≡ search 0 table.now load.now }
    ensures within { IfSome result (λ i. i < length table.now) }
{
    table.iter().position(|rule| load.contains(&rule.left))
}
