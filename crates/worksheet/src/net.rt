// What a chain received and gave of each article.
ghost use Rattle.std.specs.Prelude.{◌≡◌, pos, ◌-ℤ◌};
ghost use Rattle.worksheet.specs.Replay.{net};

use loads::Load;

// How many more the end is than the start.
fn gained(start: u16, end: u16) -> i32
    ensures { result ≡ pos end -ℤ pos start }
{
    i32::from(end) - i32::from(start)
}

// For each article the end count less the start count: positive for goods received, negative for goods given.
pub fn net(start: &Load, end: &Load) -> [i32; 8]
    ensures { result ≡ net start.now end.now }
{
    let mut net = [0; 8];
    for (i, count) in net.iter_mut().enumerate() {
        *count = gained(start.count(i), end.count(i));
    }
    net
}
