// A row of a scan, under a hunt's partial reading. Whoever calls has lent words for a trail, in which there is room as long as a variable is
// undecided; desk and working weights are only read.
ghost use Rattle.std.specs.Prelude.{◌≡◌, true};
ghost use Rattle.std.specs.Int.Bits.{bit_and};
ghost use Rattle.literals.specs.Lits.{variables_of, is_one};
ghost use Rattle.rules.specs.Desk.{satisfied};
ghost use Rattle.rules.specs.Groups.{made_true, forced_at, looked};
ghost use Rattle.group_laws.specs.Trails.{weights_in};
ghost use Rattle.looking.specs.Looks.{lits_on, hunt_of, conflicting, looked_at, left_one, Due, Roomy, sided};

use crate::Trail;
use literals::Lits;
use rules::Part;
use values::{remnant, satisfied};
use words::inner::row_on;

// Whether there is one literal. Ones of both masks together are asked for alone, and a variable that is there both ways is no unit.
fn is_unit(l: Lits) -> bool
    ensures { result ≡ is_one l }
{
    let some = l.positive | l.negative;
    (masks::count(some) == 1) & (l.positive & l.negative == 0)
}

// A partial reading in which a literal more is true.
fn made_true(l: Lits, q: Part) -> Part
    ensures { result ≡ made_true l q }
{
    Part {
        decided: q.decided | (l.positive | l.negative),
        truths: q.truths | l.positive,
    }
}

// One literal that is left is made true, and its variable joins the end of the trail with the row.
fn force(i: usize, l: Lits, t: Trail, masks: &mut [u64], rows: &mut [u64]) -> Trail
    requires l_value { (is_one l ≡ true) × (bit_and t.q.decided (variables_of l) ≡ 0) }
    requires roomy { Roomy t masks.old rows.old }
    ensures rows_after { hunt_of result masks.new rows.new ≡ forced_at i l (hunt_of t masks.old rows.old) }
    ensures roomy_2 { Roomy result masks.new rows.new }
{
    let n = t.entries;
    masks[n] = l.positive | l.negative;
    rows[n] = i as u64;
    let q = made_true(l, t.q);
    let entries = n + 1;
    Trail {
        q,
        entries,
        found: t.found,
        conflict: t.conflict,
    }
}

// Nothing is left of row i: it is the conflict.
fn conflict_at(i: usize, t: Trail) -> Trail
    ensures { result ≡ conflicting i t }
{
    let q = t.q;
    Trail {
        q,
        entries: t.entries,
        found: 1,
        conflict: i,
    }
}

// Looks at row i under q. How much is left of it decides: nothing is the conflict, one literal is made true.
fn look(i: usize, lits: Lits, t: Trail, masks: &mut [u64], rows: &mut [u64]) -> Trail
    requires { Roomy t masks.old rows.old }
    ensures rows_after { hunt_of result masks.new rows.new ≡ looked_at i lits (hunt_of t masks.old rows.old) }
    ensures roomy { Roomy result masks.new rows.new }
{
    let q = t.q;
    if satisfied(q, lits) {
        return t;
    }
    let rest = remnant(q, lits);
    if rest.positive | rest.negative == 0 {
        return conflict_at(i, t);
    }
    if is_unit(rest) {
        return force(i, rest, t, masks, rows);
    }
    t
}

// Row i in the first scan, which looks at rows whose remnant at the node is one literal. Few rows pass the test of a scan, and it is asked before
// the working weight; that no variable is left both ways is asked last.
pub fn first_step(
    desk: &[u64],
    p: Part,
    i: usize,
    weights: &[u64],
    t: Trail,
    masks: &mut [u64],
    rows: &mut [u64],
) -> Trail
    requires due { Due desk.now weights.now i t }
    requires roomy { Roomy t masks.old rows.old }
    ensures rows_after { hunt_of result masks.new rows.new ≡ looked (lits_on desk.now) (weights_in weights.now) (left_one p) i
        (hunt_of t masks.old rows.old) }
    ensures roomy_2 { Roomy result masks.new rows.new }
{
    let row = row_on(desk, i);
    let lits = row.lits;
    let rest = remnant(p, lits);
    if masks::count(rest.positive | rest.negative) != 1 {
        return t;
    }
    if weights[i] == 0 {
        return t;
    }
    if rest.positive & rest.negative != 0 {
        return t;
    }
    look(i, lits, t, masks, rows)
}

// Whether the row holds the literal with this variable's mask and this sign.
fn holds_one(bit: u64, positive: bool, l: Lits) -> bool
    ensures { result ≡ satisfied (sided bit positive) l }
{
    if positive {
        l.positive & bit != 0
    } else {
        l.negative & bit != 0
    }
}

// Row i in the scan of a trail's entry, which looks at rows that hold the negation of the entry's literal: its variable's mask and its sign.
pub fn entry_step(
    desk: &[u64],
    bit: u64,
    positive: bool,
    i: usize,
    weights: &[u64],
    t: Trail,
    masks: &mut [u64],
    rows: &mut [u64],
) -> Trail
    requires due { Due desk.now weights.now i t }
    requires roomy { Roomy t masks.old rows.old }
    ensures rows_after { hunt_of result masks.new rows.new ≡ looked (lits_on desk.now) (weights_in weights.now)
        (satisfied (sided bit positive)) i (hunt_of t masks.old rows.old) }
    ensures roomy_2 { Roomy result masks.new rows.new }
{
    let row = row_on(desk, i);
    let lits = row.lits;
    if !holds_one(bit, positive, lits) {
        return t;
    }
    if weights[i] == 0 {
        return t;
    }
    look(i, lits, t, masks, rows)
}
