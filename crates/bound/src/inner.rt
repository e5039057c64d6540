// Document 01's bound under any partial reading, of a desk that was judged, and the price of a node: what a search by it asks at each.
ghost use Rattle.std.specs.Prelude.{◌≡◌, ◌+◌, ◌≤◌, ◌<◌, length};
ghost use Rattle.literals.specs.Literal.{most_variables};
ghost use Rattle.rules.specs.Desk.{in_use, decisions};
ghost use Rattle.rules.specs.declared.Choice.{Choice};
ghost use Rattle.rules.specs.Bound.{foreseen, losses_at};
ghost use Rattle.rules.specs.Walk.{price_of};
ghost use Rattle.units.specs.Adds.{sum_words};
ghost use Rattle.desk_laws.specs.Charged.{dead_charge, lost_charged};
ghost use Rattle.bound.specs.Units.{Gathered, smaller_at};

use groups::inner::DEAD;
use judged::inner::JudgedDesk;
use rules::{Desk, Losses, Part};
use units::inner::{NEGATIVE, SUMS, add_row};

// The decisions of a desk as a partial reading.
pub fn decisions(desk: &[u64]) -> Part
    ensures { result ≡ decisions desk.now }
{
    let decided = rules::word(desk, Desk::DECIDED);
    let truths = rules::word(desk, Desk::TRUTHS);
    Part { decided, truths }
}

// Rows in a turn of the pass: a count that the compiler knows, so that a turn has no loop of its own.
const TURN: usize = 4;

// The pass over the next rows, so many of them: the sums of units are gathered in the lent words, and the result is what is lost by then, with a
// charge for each hard row that is.
fn gather_next(
    desk: JudgedDesk<'_>,
    p: Part,
    charge: u64,
    from: usize,
    count: usize,
    base: u64,
    sums: &mut [u64],
) -> u64
    requires fair { charge ≤ dead_charge }
    requires count_bound { from + count ≤ in_use desk.words.now }
    requires base_value { base ≡ lost_charged charge desk.words.now p from }
    requires gathered { Gathered desk.words.now p from sums.old }
    ensures value { result ≡ lost_charged charge desk.entry.words.now p (from + count) }
    ensures gathered_2 { Gathered desk.entry.words.now p (from + count) sums.new }
{
    let mut lost = base;
    for i in 0..count {
        let row = desk.row(from + i);
        lost = add_row(p, row, charge, lost, sums);
    }
    lost
}

// One pass over the rows in use.
fn gather(desk: JudgedDesk<'_>, p: Part, charge: u64, sums: &mut [u64]) -> u64
    requires fair { charge ≤ dead_charge }
    requires gathered { Gathered desk.words.now p 0 sums.old }
    ensures value { result ≡ lost_charged charge desk.entry.words.now p (in_use desk.entry.words.now) }
    ensures gathered_2 { Gathered desk.entry.words.now p (in_use desk.entry.words.now) sums.new }
{
    let n = desk.in_use() as usize;
    let rest = n % TURN;
    let mut lost = 0;
    for turn in 0..n / TURN {
        lost = gather_next(desk, p, charge, TURN * turn, TURN, lost, sums);
    }
    gather_next(desk, p, charge, n - rest, rest, lost, sums)
}

// What the variable with bit v adds: the smaller of its two sums, and nothing where it is decided.
fn smaller_at(decided: u64, v: u64, sums: &[u64]) -> u64
    requires { (v < most_variables) × (length sums.now ≡ sum_words) }
    ensures { result ≡ smaller_at decided v sums.now }
{
    if (decided >> v) % 2 == 1 {
        return 0;
    }
    let at = v as usize;
    let positive = sums[at];
    let negative = sums[NEGATIVE + at];
    positive.min(negative)
}

// One pass over the variables, once the sums are gathered.
fn foreseen(desk: JudgedDesk<'_>, p: Part, sums: &[u64]) -> u64
    requires { Gathered desk.words.now p (in_use desk.words.now) sums.now }
    ensures { result ≡ foreseen desk.entry.words.now p }
{
    let n = desk.variables();
    let mut sum = 0;
    for v in 0..n {
        sum += smaller_at(p.decided, v, sums);
    }
    sum
}

// Conceded, lost beyond that, foreseen. Nothing is charged for a hard row: the three numbers are of weights alone.
pub fn losses_at(desk: JudgedDesk<'_>, p: Part) -> Losses
    ensures { result ≡ losses_at desk.entry.words.now p }
{
    let conceded = desk.conceded();
    let mut sums = [0u64; SUMS];
    let lost = gather(desk, p, 0, &mut sums);
    let foreseen = foreseen(desk, p, &sums);
    Losses {
        conceded,
        lost,
        foreseen,
    }
}

// The price of a node: their total, and more than any best where a hard row is lost. Nothing is foreseen at such a node. Its sums are not to stand
// on the stack at each depth of a walk.
#[inline(never)]
pub fn price_at(desk: JudgedDesk<'_>, p: Part) -> u64
    ensures { result ≡ price_of Choice.Units desk.entry.words.now p }
{
    let mut sums = [0u64; SUMS];
    let lost = gather(desk, p, DEAD, &mut sums);
    if lost >= DEAD {
        return DEAD;
    }
    let conceded = desk.conceded();
    let foreseen = foreseen(desk, p, &sums);
    conceded + lost + foreseen
}
