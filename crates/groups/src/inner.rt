// The bound by groups under any partial reading, of a desk that was judged: of the desk the head and the rows in use are read, and of
// the lent words those of the rows in use are written.
ghost use Rattle.std.specs.Prelude.{◌≡◌, ◌+◌, ◌≤◌, min, length};
ghost use Rattle.rules.specs.Desk.{in_use};
ghost use Rattle.rules.specs.declared.Choice.{Choice};
ghost use Rattle.rules.specs.Groups.{groups_cost, losses_by_groups};
ghost use Rattle.rules.specs.Walk.{price_of};
ghost use Rattle.hunts.specs.Hunts.{Lying};
ghost use Rattle.groups.specs.Foresees.{Room, Hunted, Begun};

use gathering::inner::{ROWS, gather, take};
use hunts::inner::hunt;
use judged::inner::JudgedDesk;
use literals::Literal;
use rules::{Desk, Losses, Part, Row};
use working_weights::inner::weigh;

// The words that are lent for the working weights: enough for any desk.
pub const WORDS: usize = Desk::MOST_CAPACITY as usize;

// The price of a dead node: more than any best.
pub const DEAD: u64 = Row::MOST_WEIGHT + 1;

// Entries that a trail can have.
const ENTRIES: usize = Literal::MOST as usize;

// One hunt: what its group costs, which is taken from the group's rows; 0 where it finds nothing.
fn hunt_once(
    desk: &[u64],
    p: Part,
    weights: &mut [u64],
    masks: &mut [u64],
    rows: &mut [u64],
    group: &mut [u64],
) -> u64
    requires { Room desk.now weights.old masks.old rows.old group.old }
    ensures { Hunted desk.now p weights.old weights.new result }
{
    let t = hunt(desk, p, weights, masks, rows);
    if t.found != 0 {
        let g = gather(desk, p, weights, t, masks, rows, group);
        let size = g.size;
        let cost = g.cost;
        take(group, size, cost, weights);
        return cost;
    }
    0
}

// Hunts one after another, the sum of their costs on top of `start`. The first that finds nothing is the last, and none is made once the sum has
// reached `best`.
fn hunts_up_to(
    desk: &[u64],
    p: Part,
    start: u64,
    best: u64,
    weights: &mut [u64],
    masks: &mut [u64],
    rows: &mut [u64],
    group: &mut [u64],
) -> u64
    requires room { Room desk.now weights.old masks.old rows.old group.old }
    requires begun { Begun desk.now p start weights.old }
    ensures { min best result ≡ min best (start + groups_cost desk.now p) }
{
    let n = rules::word(desk, Desk::IN_USE);
    let mut sum = start;
    for _ in 0..n {
        if sum >= best {
            return sum;
        }
        let cost = hunt_once(desk, p, weights, masks, rows, group);
        if cost == 0 {
            return sum;
        }
        sum += cost;
    }
    sum
}

// What the hunts at a node come to on top of `start`, with words of their own for a trail and a group.
fn foreseen_up_to(desk: &[u64], p: Part, start: u64, best: u64, weights: &mut [u64]) -> u64
    requires lying { Lying desk.now weights.old }
    requires begun { Begun desk.now p start weights.old }
    ensures { min best result ≡ min best (start + groups_cost desk.now p) }
{
    if start >= best {
        return start;
    }
    let mut masks = [0u64; ENTRIES];
    let mut rows = [0u64; ENTRIES];
    let mut group = [0u64; ROWS];
    hunts_up_to(
        desk, p, start, best, weights, &mut masks, &mut rows, &mut group,
    )
}

// Conceded, lost beyond that, foreseen by groups. Nothing is charged for a hard row.
pub fn losses_at(desk: JudgedDesk<'_>, p: Part, work: &mut [u64]) -> Losses
    requires { in_use desk.words.now ≤ length work.old }
    ensures { result ≡ losses_by_groups desk.entry.words.now p }
{
    let conceded = desk.conceded();
    let lost = weigh(desk, p, 0, work);
    let foreseen = foreseen_up_to(desk.words, p, 0, DEAD, work);
    Losses {
        conceded,
        lost,
        foreseen,
    }
}

// The price of a node: their total, or no less than `best` where that is as much. No hunt is made once `best` is reached, and none where a hard row is
// lost.
pub fn price_up_to(desk: JudgedDesk<'_>, p: Part, best: u64, work: &mut [u64]) -> u64
    requires { in_use desk.words.now ≤ length work.old }
    ensures { min best result ≡ min best (price_of Choice.Groups desk.entry.words.now p) }
{
    let lost = weigh(desk, p, DEAD, work);
    if lost >= DEAD {
        return DEAD;
    }
    let conceded = desk.conceded();
    let certain = conceded + lost;
    foreseen_up_to(desk.words, p, certain, best, work)
}
