// The search of a desk that was judged: it reads the head and the rows in use, and no word behind them.
ghost use Rattle.std.specs.Prelude.{◌≡◌, ◌≤◌, length};
ghost use Rattle.rules.specs.Walk.{walk_in, found_by};
ghost use Rattle.walk.specs.Work.{work_by};

use crate::{depth, states};
use bound::inner::decisions;
use judged::inner::JudgedDesk;
use rules::{Choice, Found};

// What the walk has found at its end.
pub fn found_on(desk: JudgedDesk<'_>, choice: Choice, budget: u32, work: &mut [u64]) -> Found
    requires { work_by choice desk.words.now ≤ length work.old }
    ensures { result ≡ found_by (walk_in desk.entry.words.now choice budget) }
{
    let start = states::at_start(desk);
    let p = decisions(desk.words);
    let end = depth::walk(desk, choice, budget as u64, p, start, work);
    states::found_by(end)
}
