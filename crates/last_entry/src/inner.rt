// A last entry judged, on a well-formed desk on which a step stands, and what that step added to conceded.
ghost use Rattle.std.specs.Prelude.{◌≡◌, true, ◌≤◌};
ghost use Rattle.rules.specs.Desk.{in_use};
ghost use Rattle.rules.specs.Steps.{most_named};
ghost use Rattle.rules.specs.TakeBack.{bad_decision, bad_rewriting, bad_last, last_kind, last_conceded};
ghost use Rattle.kinds.specs.Numbers.{number};
ghost use Rattle.last_entry.specs.Last.{Stands, Counts, named_well, added_well, soft_named, over_after};

use kinds::Kind;
use named::{all_below, repeated};
use rules::{Desk, Entry, Row, word};
use tables::inner::over;
use values::is_hard;
use words::inner::{last_rows, last_word, row_on};

// The last entry is bad.
pub fn bad_last(desk: &[u64]) -> bool
    requires { Stands desk.now }
    ensures { result ≡ bad_last desk.now }
{
    let Some(kind) = Kind::of(last_word(desk, Entry::KIND)) else {
        return true;
    };
    match kind {
        Kind::Decision => bad_decision(desk),
        _ => bad_rewriting(desk, kind),
    }
}

// What the step added to conceded.
pub fn conceded_by(desk: &[u64]) -> u64
    requires { Stands desk.now }
    ensures { result ≡ last_conceded desk.now }
{
    let Some(kind) = Kind::of(last_word(desk, Entry::KIND)) else {
        return 0;
    };
    let w = last_word(desk, Entry::WEIGHT);
    let none_added = word(desk, Desk::IN_USE) == last_word(desk, Entry::FIRST);
    match kind {
        Kind::Merge if none_added => w,
        _ => w * kind.concedes(),
    }
}

// A decision on a variable that isn't decided.
fn bad_decision(desk: &[u64]) -> bool
    requires { Stands desk.now }
    ensures { result ≡ bad_decision desk.now }
{
    let v = last_word(desk, Entry::VARIABLE);
    if v == 0 {
        return true;
    }
    !masks::has(word(desk, Desk::DECIDED), v - 1)
}

// A rewriting's entry that no rewriting can have left.
fn bad_rewriting(desk: &[u64], kind: Kind) -> bool
    requires stands { Stands desk.now }
    requires kind_told { number kind ≡ last_kind desk.now }
    requires some { 1 ≤ last_kind desk.now }
    ensures { result ≡ bad_rewriting desk.now }
{
    let n = last_word(desk, Entry::COUNT);
    let first = last_word(desk, Entry::FIRST);
    if !kind.count_fits(n) {
        return true;
    }
    if !rows_named(desk, n as usize, first) {
        return true;
    }
    if first < word(desk, Desk::LOADED) {
        return true;
    }
    if !rows_added(desk, kind, n, first) {
        return true;
    }
    let back = conceded_by(desk);
    if word(desk, Desk::CONCEDED) < back {
        return true;
    }
    if !none_hard(desk, n as usize, first) {
        return true;
    }
    too_heavy(desk, n, first, word(desk, Desk::CONCEDED) - back)
}

// Its rows: none named twice, all below the first new row.
fn rows_named(desk: &[u64], n: usize, first: u64) -> bool
    requires stands { Stands desk.now }
    requires n_le_most_named { n ≤ most_named }
    ensures { result ≡ named_well desk.now n first }
{
    let rows = last_rows(desk);
    let named = &rows[..n];
    !repeated(named) & all_below(named, first)
}

// The rows in use above the first new row are what the kind adds.
fn rows_added(desk: &[u64], kind: Kind, n: u64, first: u64) -> bool
    requires { Stands desk.now }
    ensures { result ≡ added_well desk.now (number kind) n first }
{
    let in_use = word(desk, Desk::IN_USE);
    let total = in_use + kind.fewer_added();
    if n <= total {
        if total - n == first {
            return true;
        }
    }
    match kind {
        Kind::Merge => in_use == first,
        _ => false,
    }
}

// None of its rows is hard.
fn none_hard(desk: &[u64], n: usize, first: u64) -> bool
    requires stands { Stands desk.now }
    requires n_le_most_named { n ≤ most_named }
    requires first_bound { first ≤ in_use desk.now }
    requires first_value { named_well desk.now n first ≡ true }
    ensures { result ≡ soft_named desk.now n }
{
    let rows = last_rows(desk);
    rows[..n]
        .iter()
        .all(|row| !is_hard(row_on(desk, *row as usize)))
}

// Conceded and the weights, with w back on each named row, come to more than the limit.
fn too_heavy(desk: &[u64], n: u64, first: u64, start: u64) -> bool
    requires { Counts desk.now n first start }
    ensures { result ≡ over_after desk.now n first start }
{
    let w = last_word(desk, Entry::WEIGHT);
    if w > Row::MOST_WEIGHT {
        return true;
    }
    over(desk, first as usize, start + n * w)
}
