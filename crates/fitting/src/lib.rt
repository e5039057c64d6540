// Whether a rewriting fits: its kind, the rows it names, their remnants, and the room that it needs. It is judged in the order 10, 11, 13, 14, 15.
#![tactic(auto)]

ghost use Rattle.std.specs.Prelude.{◌≡◌, ◌+◌, ◌≤◌, length, true, false, Ok, Err, MatchOption, MatchResult};
ghost use Rattle.rules.specs.Rewrite.{chains, forks, well_fitted, rewrite_why};
ghost use Rattle.rules.specs.Steps.{well_named, remnant_of};
ghost use Rattle.kinds.specs.Numbers.{number};
ghost use Rattle.remnants.specs.Rows.{WellNamed};
ghost use Rattle.fitting.specs.Open.{all_open};

use formed::well_formed;
use kinds::Kind;
use named::{all_below, repeated};
use remnants::inner::{Naming, merges, shows};
use rules::{Desk, Part, Refusal, word};
use values::{is_hard, satisfied};
use words::inner::row_on;

// The kind of a rewriting that fits. It is asked for by its number, and one that is unknown is refused with 13.
pub fn rewrite_why(desk: &[u64], n: u64, named: &[u64]) -> Result<Kind, Refusal>
    ensures { let why = rewrite_why desk.now n named.now in
        MatchResult result (λ kind. (number kind ≡ n) × (why ≡ Ok tt)) (λ refusal. why ≡ Err refusal) }
{
    if !well_formed(desk) {
        return Err(Refusal::BadDesk);
    }
    if Desk::MOST_STEPS <= word(desk, Desk::STANDING) {
        return Err(Refusal::TooManySteps);
    }
    let Some(kind) = named_kind(desk, n, named) else {
        return Err(Refusal::BadNaming);
    };
    let rows = Naming { desk, named };
    if !well_fitted(kind, &rows) {
        return Err(Refusal::BadFit);
    }
    if word(desk, Desk::CAPACITY) < word(desk, Desk::IN_USE) + rows.added(kind) {
        return Err(Refusal::DeskFull);
    }
    Ok(kind)
}

// The kind that has a number, where the rows are well named for it.
fn named_kind(desk: &[u64], n: u64, named: &[u64]) -> Option<Kind>
    ensures { let well = well_named desk.now n named.now in
        MatchOption result (well ≡ false) (λ kind. (number kind ≡ n) × (well ≡ true)) }
{
    let kind = Kind::of(n)?;
    if !well_named(desk, kind, named) {
        return None;
    }
    Some(kind)
}

// A rewriting, the right count of rows, all in use, none named twice. Before that is seen, a row may lie anywhere, so that there is no Naming yet.
fn well_named(desk: &[u64], kind: Kind, named: &[u64]) -> bool
    ensures { result ≡ well_named desk.now (number kind) named.now }
{
    if let Kind::Decision = kind {
        return false;
    }
    if !kind.count_fits(named.len() as u64) {
        return false;
    }
    if !all_below(named, word(desk, Desk::IN_USE)) {
        return false;
    }
    !repeated(named)
}

// No named row hard, spent or satisfied, and the remnants fit the kind.
fn well_fitted(kind: Kind, rows: &Naming) -> bool
    requires { WellNamed (number kind) (length rows.now.named.now) }
    ensures { result ≡ well_fitted rows.now.desk.now (number kind) rows.now.named.now }
{
    if !all_open(rows) {
        return false;
    }
    match kind {
        // It names no row.
        Kind::Decision => unreachable!(),
        Kind::Merge => merges(rows.remnant(0), rows.remnant(1)),
        Kind::Shift => rows.follow(1).fits,
        Kind::Chain => chain(rows, rows.named.len() - 2),
        Kind::Fork => fork(rows, rows.named.len() - 4),
    }
}

// No named row is hard, spent or satisfied.
fn all_open(rows: &Naming) -> bool
    ensures { result ≡ all_open rows.now.desk.now rows.now.named.now }
{
    let desk = rows.desk;
    let p = Part {
        decided: desk[Desk::DECIDED],
        truths: desk[Desk::TRUTHS],
    };
    rows.named.iter().all(|i| {
        let row = row_on(desk, *i as usize);
        !(is_hard(row) | ((row.weight == 0) | satisfied(p, row.lits)))
    })
}

// l1; k rows (not li, l(i+1)); not l(k+1).
fn chain(rows: &Naming, k: usize) -> bool
    requires { k + 2 ≤ length rows.now.named.now }
    ensures { result ≡ chains (remnant_of rows.now.desk.now rows.now.named.now) k }
{
    let link = rows.follow(k);
    link.fits & rows.remnant(k + 1).is_same(link.lit.negated())
}

// l1; k rows (not li, l(i+1)); (not a, b); (not a, c); (not b, not c), a = l(k+1).
fn fork(rows: &Naming, k: usize) -> bool
    requires { k + 4 ≤ length rows.now.named.now }
    ensures { result ≡ forks (remnant_of rows.now.desk.now rows.now.named.now) k }
{
    let link = rows.follow(k);
    let no = link.lit.negated();
    let one = rows.remnant(k + 1);
    let two = rows.remnant(k + 2);
    let three = rows.remnant(k + 3);
    let b = one.less(no);
    let c = two.less(no);
    link.fits & (shows(one, no, b) & (shows(two, no, c) & shows(three, b.negated(), c.negated())))
}
