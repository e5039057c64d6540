// A desk in lent words is well formed, (a) to (e), and one that is can be read.
#![tactic(auto)]

ghost use Rattle.std.specs.Prelude.{◌≡◌, true, false, not, ◌||◌, ◌+◌, ◌*◌, ◌≤◌, length, MatchOption};
ghost use Rattle.masks.specs.Sums.{every};
ghost use Rattle.rules.specs.Table.{row_words, bad_lits, bad_mark};
ghost use Rattle.rules.specs.Desk.{head_words, row_on, reaches, in_limits, masks_nest, well_formed};

use judged::inner::JudgedDesk;
use literals::Literal;
use rules::{Desk, Entry, Row, word};
use tables::inner::over;
use values::{bad_lits, bad_mark};
use words::inner::row_on;

// Whether a desk in these words is well formed.
pub fn well_formed(desk: &[u64]) -> bool
    ensures { result ≡ well_formed desk.now }
{
    if !reaches(desk) {
        return false;
    }
    if !in_limits(desk) {
        return false;
    }
    let n = word(desk, Desk::IN_USE) as usize;
    if !rows_sound(desk, word(desk, Desk::VARIABLES), n) {
        return false;
    }
    if over(desk, n, word(desk, Desk::CONCEDED)) {
        return false;
    }
    masks_nest(desk)
}

// The same words as a desk that was judged, where they are well formed.
pub fn judge(desk: &[u64]) -> Option<JudgedDesk<'_>>
    ensures { MatchOption result (well_formed desk.now ≡ false) (λ d. (well_formed desk.now ≡ true) × (d.words.now ≡ desk.now)) }
{
    if well_formed(desk) {
        Some(JudgedDesk { words: desk })
    } else {
        None
    }
}

// (a) The words reach the end of the desk.
fn reaches(desk: &[u64]) -> bool
    ensures { result ≡ reaches desk.now }
{
    let c = word(desk, Desk::CAPACITY);
    if c > Desk::MOST_CAPACITY {
        return false;
    }
    Desk::HEAD + Row::WORDS * (c as usize) + Entry::ALL_WORDS <= desk.len()
}

// (b) The counts keep their limits.
fn in_limits(desk: &[u64]) -> bool
    ensures { result ≡ in_limits desk.now }
{
    let h = Desk::of(desk);
    (h.variables <= Literal::MOST)
        & ((h.loaded <= Row::MOST as u64)
            & ((h.loaded <= h.in_use)
                & ((h.in_use <= h.capacity) & (h.standing <= Desk::MOST_STEPS))))
}

// (c) No row in use has a variable both ways or above the count, or a bad mark.
fn rows_sound(desk: &[u64], variables: u64, n: usize) -> bool
    requires { head_words + row_words * n ≤ length desk.now }
    ensures { result ≡ every n (λ i. not (bad_lits variables (row_on desk.now i).lits || bad_mark (row_on desk.now i))) }
{
    (0..n).all(|i| {
        let row = row_on(desk, i);
        !(bad_lits(variables, row.lits) | bad_mark(row))
    })
}

// (e) The true mask lies in the decided mask, and that within the variables.
fn masks_nest(desk: &[u64]) -> bool
    ensures { result ≡ masks_nest desk.now }
{
    let h = Desk::of(desk);
    (masks::without(h.truths, h.decided) == 0) & masks::below(h.decided, h.variables)
}
