// The new rows of a rewriting, in document 01's order, and its entry.
// A value that holds the desk would keep it from being written. So desk and named rows come apart, and Behind stands as a clause; the two are one
// value where remnants are read.
ghost use Rattle.std.specs.Prelude.{◌≡◌, ◌+◌, ◌-◌, ◌*◌, ◌≤◌, ◌<◌, [], ◌∷◌, length};
ghost use Rattle.rules.specs.Table.{row_words};
ghost use Rattle.rules.specs.Desk.{head_words};
ghost use Rattle.rules.specs.Rewrite.{compensating, given, laid, rewriting_entry};
ghost use Rattle.rules.specs.Steps.{remnant_of, stored, most_named};
ghost use Rattle.kinds.specs.Numbers.{number};
ghost use Rattle.laying.specs.Room.{Behind, Fitting, fork_rows};

use kinds::Kind;
use literals::Lits;
use remnants::inner::Naming;
use rules::{Entry, Row};
use words::inner::set_row;

// Lays the new rows from row `first` on.
pub fn lay(desk: &mut [u64], kind: Kind, named: &[u64], first: usize, w: u64)
    requires { Fitting desk.old (number kind) named.now first }
    ensures { desk.new ≡ laid desk.old first w (stored (given desk.old (number kind) named.now)) }
{
    match kind {
        // It gives no row.
        Kind::Decision => unreachable!(),
        Kind::Merge => lay_merge(desk, named, first, w),
        Kind::Shift => lay_shift(desk, named, first, w),
        Kind::Chain => lay_back(desk, named, named.len() - 2, first, w),
        Kind::Fork => lay_fork(desk, named, first, w),
    }
}

// The common rest, unless it is empty.
fn lay_merge(desk: &mut [u64], named: &[u64], first: usize, w: u64)
    requires behind { Behind desk.old named.now first }
    requires in_bounds { 2 ≤ length named.now }
    requires first_in_bounds { head_words + row_words * (first + 1) ≤ length desk.old }
    ensures { desk.new ≡ laid desk.old first w (stored (given desk.old 1 named.now)) }
{
    let rest = Naming { desk, named }.rest();
    if rest.is_empty() {
        return;
    }
    set_row(desk, first, Row::new(rest, w));
}

// Two rows, one behind the other.
fn lay_two(desk: &mut [u64], at: usize, one: Lits, other: Lits, w: u64)
    requires { head_words + row_words * (at + 2) ≤ length desk.old }
    ensures { desk.new ≡ laid desk.old at w (one ∷ other ∷ []) }
{
    set_row(desk, at, Row::new(one, w));
    set_row(desk, at + 1, Row::new(other, w));
}

// (l1, not l2); l2.
fn lay_shift(desk: &mut [u64], named: &[u64], first: usize, w: u64)
    requires behind { Behind desk.old named.now first }
    requires in_bounds { 2 ≤ length named.now }
    requires first_in_bounds { head_words + row_words * (first + 2) ≤ length desk.old }
    ensures { desk.new ≡ laid desk.old first w (given desk.old 2 named.now) }
{
    let rows = Naming { desk, named };
    let one = rows.remnant(0);
    let two = rows.remnant(1).less(one.negated());
    lay_two(desk, first, one.together(two.negated()), two, w);
}

// k rows (li, not l(i+1)).
fn lay_back(desk: &mut [u64], named: &[u64], k: usize, first: usize, w: u64)
    requires behind { Behind desk.old named.now first }
    requires k_in_bounds { k < length named.now }
    requires k_in_bounds_2 { head_words + row_words * (first + k) ≤ length desk.old }
    ensures { desk.new ≡ laid desk.old first w (compensating (remnant_of desk.old named.now) k) }
{
    let mut lit = Naming { desk, named }.remnant(0);
    for i in 0..k {
        let next = Naming { desk, named }.remnant(i + 1).less(lit.negated());
        set_row(desk, first + i, Row::new(lit.together(next.negated()), w));
        lit = next;
    }
}

// k rows (li, not l(i+1)); (a, not b, not c); (not a, b, c).
fn lay_fork(desk: &mut [u64], named: &[u64], first: usize, w: u64)
    requires behind { Behind desk.old named.now first }
    requires in_bounds { 4 ≤ length named.now }
    requires named_in_bounds { head_words + row_words * (first + (length named.now - 2)) ≤ length desk.old }
    ensures { desk.new ≡ laid desk.old first w (fork_rows desk.old named.now) }
{
    let k = named.len() - 4;
    let end = Naming { desk, named }.fork_end(k);
    lay_back(desk, named, k, first, w);
    lay_two(desk, first + k, end.one, end.other, w);
}

// Kind, w, count of rows named, the rows, 0 in those not needed, and the first new row.
pub fn rewriting_entry(kind: Kind, w: u64, named: &[u64], first: u64) -> [u64; Entry::WORDS]
    requires { length named.now ≤ most_named }
    ensures { result ≡ rewriting_entry (number kind) w named.now first }
{
    let mut entry = [
        kind.number(),
        w,
        named.len() as u64,
        0,
        0,
        0,
        0,
        0,
        0,
        0,
        0,
        0,
        0,
        0,
        0,
        first,
    ];
    entry[Entry::ROWS..Entry::ROWS + named.len()].copy_from_slice(named);
    entry
}
