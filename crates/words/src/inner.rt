// Rows and entries of a desk, read and written where the caller has seen that they lie within the lent words.
ghost use Rattle.std.specs.Prelude.{◌≡◌, ℕ, ◌+◌, ◌*◌, ◌≤◌, ◌<◌, length, get_or};
ghost use Rattle.std.proofs.lemmas.List.Edits.{sets};
ghost use Rattle.masks.specs.Words.{zeroed};
ghost use Rattle.rules.specs.Table.{row_in, row_words, row_words_of};
ghost use Rattle.rules.specs.Desk.{head_words, entry_words, row_place, row_on, set_row, set_weight};
ghost use Rattle.rules.specs.Decide.{entered};
ghost use Rattle.rules.specs.TakeBack.{last_place, last_named, withdrawn};
ghost use Rattle.rules.specs.Steps.{most_named};
ghost use Rattle.words.specs.Room.{EntryLeft, StepStands};

use literals::Lits;
use rules::{Desk, Entry, Row};
use values::with_weight;

// The row whose words begin at a place.
pub fn row_in(words: &[u64], at: usize) -> Row
    requires { at + row_words ≤ length words.now }
    ensures { result ≡ row_in words.now at }
{
    let positive = words[at];
    let negative = words[at + 1];
    let weight = words[at + 2];
    let mark = words[at + 3];
    Row::marked(Lits { positive, negative }, weight, mark)
}

// The words of a row, from a place on.
pub fn set_row_in(words: &mut [u64], at: usize, row: Row)
    requires { at + row_words ≤ length words.old }
    ensures { words.new ≡ sets words.old at (row_words_of row) }
{
    words[at] = row.lits.positive;
    words[at + 1] = row.lits.negative;
    words[at + 2] = row.weight;
    words[at + 3] = row.mark;
}

// Row i of a desk.
pub fn row_on(desk: &[u64], i: usize) -> Row
    requires { head_words + row_words * (i + 1) ≤ length desk.now }
    ensures { result ≡ row_on desk.now i }
{
    row_in(desk, Desk::HEAD + Row::WORDS * i)
}

// Row i of a desk becomes this row.
pub fn set_row(desk: &mut [u64], i: usize, row: Row)
    requires { head_words + row_words * (i + 1) ≤ length desk.old }
    ensures { desk.new ≡ set_row desk.old i row }
{
    set_row_in(desk, Desk::HEAD + Row::WORDS * i, row);
}

// Row i of a desk gets another weight.
pub fn set_weight(desk: &mut [u64], i: usize, w: u64)
    requires { head_words + row_words * (i + 1) ≤ length desk.old }
    ensures { desk.new ≡ set_weight desk.old i w }
{
    let row = with_weight(row_on(desk, i), w);
    set_row(desk, i, row);
}

// 0 at the n places from `at` on.
pub fn zero(desk: &mut [u64], at: usize, n: usize)
    requires { at + n ≤ length desk.old }
    ensures { desk.new ≡ zeroed desk.old at n }
{
    desk[at..at + n].fill(0);
}

// A step gets the next entry, and one more stands.
pub fn enter(desk: &mut [u64], entry: [u64; Entry::WORDS])
    requires { EntryLeft desk.old }
    ensures { desk.new ≡ entered desk.old entry }
{
    let c = desk[Desk::CAPACITY] as usize;
    let n = desk[Desk::STANDING];
    store(
        desk,
        Desk::HEAD + Row::WORDS * c + Entry::WORDS * (n as usize),
        entry,
    );
    desk[Desk::STANDING] = n + 1;
}

// The words of an entry, from a place on.
fn store(desk: &mut [u64], at: usize, entry: [u64; Entry::WORDS])
    requires { at + entry_words ≤ length desk.old }
    ensures { desk.new ≡ sets desk.old at entry }
{
    desk[at..at + Entry::WORDS].copy_from_slice(&entry);
}

// A word of the last entry.
pub fn last_word(desk: &[u64], k: usize) -> u64
    requires step_stands { StepStands desk.now }
    requires k_lt_entry_words { k < entry_words }
    ensures { result ≡ get_or desk.now (last_place desk.now + k) 0 }
{
    let c = desk[Desk::CAPACITY] as usize;
    let n = desk[Desk::STANDING] as usize;
    desk[Desk::HEAD + Row::WORDS * c + Entry::WORDS * (n - 1) + k]
}

// The last entry is zeroed, and one less stands.
pub fn withdraw(desk: &mut [u64])
    requires { StepStands desk.old }
    ensures { desk.new ≡ withdrawn desk.old }
{
    let c = desk[Desk::CAPACITY] as usize;
    let n = desk[Desk::STANDING];
    zero(
        desk,
        Desk::HEAD + Row::WORDS * c + Entry::WORDS * (n as usize - 1),
        Entry::WORDS,
    );
    desk[Desk::STANDING] = n - 1;
}

// The row numbers of the last entry.
pub fn last_rows(desk: &[u64]) -> [u64; Entry::NAMED]
    requires { StepStands desk.now }
    ensures { (i : ℕ) → i < most_named → get_or result i 0 ≡ last_named desk.now i }
{
    let c = desk[Desk::CAPACITY] as usize;
    let n = desk[Desk::STANDING] as usize;
    let at = Desk::HEAD + Row::WORDS * c + Entry::WORDS * (n - 1) + Entry::ROWS;
    let mut rows = [0u64; Entry::NAMED];
    rows.copy_from_slice(&desk[at..at + Entry::NAMED]);
    rows
}

// Rows of a desk are zeroed, n of them from row `first` on.
pub fn zero_rows(desk: &mut [u64], first: usize, n: usize)
    requires { head_words + row_words * (first + n) ≤ length desk.old }
    ensures { desk.new ≡ zeroed desk.old (row_place first) (row_words * n) }
{
    zero(desk, Desk::HEAD + Row::WORDS * first, Row::WORDS * n);
}
