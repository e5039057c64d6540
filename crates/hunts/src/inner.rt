// A hunt on a desk that the caller has judged, with working weights that the caller has made: both are only read, and of the desk only the
// head and the rows in use.
ghost use Rattle.std.specs.Prelude.{◌≡◌, false, ◌<◌};
ghost use Rattle.rules.specs.Desk.{variables, in_use, satisfied};
ghost use Rattle.rules.specs.Groups.{scanned, entry_scanned, drained, hunted};
ghost use Rattle.group_laws.specs.Trails.{weights_in};
ghost use Rattle.looking.specs.Looks.{lits_on, hunt_of, sided, Lent, Roomy};
ghost use Rattle.hunts.specs.Hunts.{Lying};

use looking::Trail;
use looking::inner::{entry_step, first_step};
use rules::{Desk, Part};

// The first scan, from the node's partial reading and an empty trail.
fn first_scan(desk: &[u64], p: Part, weights: &[u64], masks: &mut [u64], rows: &mut [u64]) -> Trail
    requires lying { Lying desk.now weights.now }
    requires lent { Lent masks.old rows.old }
    ensures rows_after { hunt_of result masks.new rows.new ≡ drained (lits_on desk.now) (weights_in weights.now)
        (in_use desk.now) p 0 }
    ensures roomy { Roomy result masks.new rows.new }
{
    let n = rules::word(desk, Desk::IN_USE) as usize;
    let mut t = Trail {
        q: p,
        entries: 0,
        found: 0,
        conflict: 0,
    };
    for i in 0..n {
        t = first_step(desk, p, i, weights, t, masks, rows);
        if t.found != 0 {
            return t;
        }
    }
    t
}

// The scan of the rows that hold the literal with this variable's mask and this sign.
fn literal_scan(
    desk: &[u64],
    bit: u64,
    positive: bool,
    weights: &[u64],
    start: Trail,
    masks: &mut [u64],
    rows: &mut [u64],
) -> Trail
    requires lying { Lying desk.now weights.now }
    requires roomy { Roomy start masks.old rows.old }
    requires found_value { start.found ≡ 0 }
    ensures rows_after { hunt_of result masks.new rows.new ≡ scanned (lits_on desk.now) (weights_in weights.now)
        (satisfied (sided bit positive)) (in_use desk.now) (hunt_of start masks.old rows.old) }
    ensures roomy_2 { Roomy result masks.new rows.new }
{
    let in_use = rules::word(desk, Desk::IN_USE) as usize;
    let mut t = start;
    for i in 0..in_use {
        t = entry_step(desk, bit, positive, i, weights, t, masks, rows);
        if t.found != 0 {
            return t;
        }
    }
    t
}

// The same for a negative literal: by a name of its own, so that the compiler makes a loop for each sign and asks for it once.
fn negative_scan(
    desk: &[u64],
    bit: u64,
    weights: &[u64],
    start: Trail,
    masks: &mut [u64],
    rows: &mut [u64],
) -> Trail
    requires lying { Lying desk.now weights.now }
    requires roomy { Roomy start masks.old rows.old }
    requires found_value { start.found ≡ 0 }
    ensures rows_after { hunt_of result masks.new rows.new ≡ scanned (lits_on desk.now) (weights_in weights.now)
        (satisfied (sided bit false)) (in_use desk.now) (hunt_of start masks.old rows.old) }
    ensures roomy_2 { Roomy result masks.new rows.new }
{
    literal_scan(desk, bit, false, weights, start, masks, rows)
}

// The scan of the trail's entry k: of the rows that hold the negation of its literal.
fn entry_scan(
    desk: &[u64],
    k: usize,
    weights: &[u64],
    start: Trail,
    masks: &mut [u64],
    rows: &mut [u64],
) -> Trail
    requires lying { Lying desk.now weights.now }
    requires roomy { Roomy start masks.old rows.old }
    requires k_lt_entries { (k < start.entries) × (start.found ≡ 0) }
    ensures rows_after { hunt_of result masks.new rows.new ≡ entry_scanned (lits_on desk.now) (weights_in weights.now)
        (in_use desk.now) k (hunt_of start masks.old rows.old) }
    ensures roomy_2 { Roomy result masks.new rows.new }
{
    let bit = masks[k];
    if masks::without(bit, start.q.truths) == 0 {
        return negative_scan(desk, bit, weights, start, masks, rows);
    }
    literal_scan(desk, bit, true, weights, start, masks, rows)
}

// A hunt: the first scan, then the trail's entries from the oldest on, those that join meanwhile included. It ends at a conflict, at the trail's
// end, or after as many entries as there are variables.
pub fn hunt(desk: &[u64], p: Part, weights: &[u64], masks: &mut [u64], rows: &mut [u64]) -> Trail
    requires lying { Lying desk.now weights.now }
    requires lent { Lent masks.old rows.old }
    ensures rows_after { hunt_of result masks.new rows.new ≡ hunted (lits_on desk.now) (weights_in weights.now)
        (in_use desk.now) (variables desk.now) p }
    ensures roomy { Roomy result masks.new rows.new }
{
    let n = rules::word(desk, Desk::VARIABLES) as usize;
    let mut t = first_scan(desk, p, weights, masks, rows);
    for k in 0..n {
        if (t.found != 0) | (t.entries <= k) {
            return t;
        }
        t = entry_scan(desk, k, weights, t, masks, rows);
    }
    t
}
