// The walk below a node, depth first.
ghost use Rattle.std.specs.Prelude.{◌≡◌, ◌≤◌, min, length};
ghost use Rattle.rules.specs.Desk.{variables};
ghost use Rattle.rules.specs.Walk.{walk, undecided, price_of, tried_first};
ghost use Rattle.walk.specs.Next.{Next};
ghost use Rattle.walk.specs.Work.{work_by};

use crate::states::{halted, kept_at, visited};
use groups::inner::price_up_to;
use judged::inner::JudgedDesk;
use rules::{Choice, Part, Walked};

// The lowest variable that is left, or 64.
fn next(decided: u64) -> u64
    ensures { Next decided result }
{
    masks::lowest(!decided)
}

// The price of a node, by the bound that is chosen. Where it is no less than best it need not be known.
fn price_at(desk: JudgedDesk<'_>, choice: Choice, p: Part, best: u64, work: &mut [u64]) -> u64
    requires { work_by choice desk.words.now ≤ length work.old }
    ensures { min best result ≡ min best (price_of choice desk.entry.words.now p) }
{
    match choice {
        Choice::Units => bound::inner::price_at(desk, p),
        Choice::Groups => price_up_to(desk, p, best, work),
    }
}

// Enters the node of a partial reading where the budget has room for it. It is cut where no reading below it can be better; where
// no variable is left its reading is kept; else the next variable is tried true, then false.
pub fn walk(
    desk: JudgedDesk<'_>,
    choice: Choice,
    budget: u64,
    p: Part,
    s: Walked,
    work: &mut [u64],
) -> Walked
    requires { work_by choice desk.words.now ≤ length work.old }
    ensures { result ≡ walk (price_of choice desk.entry.words.now) tried_first budget (undecided (variables desk.entry.words.now) p.decided) p s }
{
    if s.nodes >= budget {
        return halted(s);
    }
    let here = visited(s);
    let price = price_at(desk, choice, p, s.best, work);
    if price >= s.best {
        return here;
    }
    let v = next(p.decided);
    if v >= desk.variables() {
        return kept_at(price, p.truths, here);
    }
    let one = walk(desk, choice, budget, p.fixed(v, true), here, work);
    walk(desk, choice, budget, p.fixed(v, false), one, work)
}
