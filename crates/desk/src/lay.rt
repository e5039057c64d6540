// Load: judged whole before the first word is written.
ghost use Rattle.std.specs.Prelude.{◌≡◌, ◌+◌, ◌*◌, ◌≤◌, length};
ghost use Rattle.std.proofs.lemmas.List.Edits.{sets};
ghost use Rattle.rules.specs.Table.{row_words};
ghost use Rattle.rules.specs.Desk.{head_words, most_capacity, desk_words, load_why, load_step, load_desk};
ghost use Rattle.desk.specs.Lay.{head_for};

use literals::Literal;
use rules::{Desk, Entry, Refusal, Row};
use tables::{bad_table, rows_and_sum};
use words::inner::zero;

// A table onto a desk with room for C rows.
pub fn load(variables: u64, table: &[u64], capacity: u64, desk: &mut [u64]) -> Result<(), Refusal>
    ensures value { result ≡ load_why variables table.now capacity desk.old }
    ensures desk_after { desk.new ≡ load_desk variables table.now capacity desk.old }
{
    load_why(variables, table, capacity, desk)?;
    lay(variables, table, capacity, desk);
    Ok(())
}

fn load_why(variables: u64, table: &[u64], capacity: u64, desk: &[u64]) -> Result<(), Refusal>
    ensures { result ≡ load_why variables table.now capacity desk.now }
{
    if variables > Literal::MOST {
        return Err(Refusal::TooManyVariables);
    }
    if bad_table(table) {
        return Err(Refusal::BadTable);
    }
    if (capacity < (table.len() / Row::WORDS) as u64) | (capacity > Desk::MOST_CAPACITY) {
        return Err(Refusal::BadCapacity);
    }
    if desk.len() < desk_words(capacity) {
        return Err(Refusal::NoRoom);
    }
    rows_and_sum(variables, table)
}

// Words of a desk with room for C rows.
fn desk_words(capacity: u64) -> usize
    requires { capacity ≤ most_capacity }
    ensures { result ≡ desk_words capacity }
{
    Desk::HEAD + Row::WORDS * (capacity as usize) + Entry::ALL_WORDS
}

// The head, the table, and 0 in the words not in use.
fn lay(variables: u64, table: &[u64], capacity: u64, desk: &mut [u64])
    requires capacity_le_most_capacity { capacity ≤ most_capacity }
    requires table_len_bound { length table.now ≤ row_words * capacity }
    requires capacity_in_bounds { desk_words capacity ≤ length desk.old }
    ensures { desk.new ≡ load_step variables table.now capacity desk.old }
{
    let rows = (table.len() / Row::WORDS) as u64;
    let end = desk_words(capacity);
    lay_head(variables, rows, capacity, desk);
    copy(table, desk, Desk::HEAD);
    let used = Desk::HEAD + table.len();
    zero(desk, used, end - used);
}

pub fn lay_head(variables: u64, rows: u64, capacity: u64, desk: &mut [u64])
    requires { head_words ≤ length desk.old }
    ensures { desk.new ≡ sets desk.old 0 (head_for variables rows capacity) }
{
    desk[Desk::VARIABLES] = variables;
    desk[Desk::IN_USE] = rows;
    desk[Desk::CAPACITY] = capacity;
    desk[Desk::STANDING] = 0;
    desk[Desk::CONCEDED] = 0;
    desk[Desk::DECIDED] = 0;
    desk[Desk::TRUTHS] = 0;
    desk[Desk::LOADED] = rows;
}

// The words of a table into a desk, from a place on.
fn copy(table: &[u64], desk: &mut [u64], at: usize)
    requires { at + length table.now ≤ length desk.old }
    ensures { desk.new ≡ sets desk.old at table.now }
{
    // Word by word: the library's copy of so many words needs `memmove`, and the archive for C is to need `memcpy` and `memset` alone.
    for i in 0..table.len() {
        desk[at + i] = table[i];
    }
}
