// A row: what it adds to a reading's weight, and what may be wrong with it.
ghost use Rattle.std.specs.Prelude.{◌≡◌, cond};
ghost use Rattle.rules.specs.Table.{with_weight, is_hard, holds, given_up, breaks, bad_lits, bad_mark, bad_weight, row_why};

use literals::Lits;
use rules::{Refusal, Row};

// The row with another weight.
pub fn with_weight(row: Row, weight: u64) -> Row
    ensures { result ≡ with_weight row weight }
{
    Row::marked(row.lits, weight, row.mark)
}

// What the row adds to the weight of a full reading.
pub fn given_up(row: Row, reading: u64) -> u64
    ensures { result ≡ given_up row reading }
{
    if holds(row.lits, reading) {
        0
    } else {
        row.weight
    }
}

pub fn is_hard(row: Row) -> bool
    ensures { result ≡ is_hard row }
{
    row.mark == Row::HARD
}

// The charge that is added to the row's weight: all of it where the row is hard.
pub fn charge_on(row: Row, charge: u64) -> u64
    ensures { result ≡ cond (is_hard row) charge 0 }
{
    if is_hard(row) { charge } else { 0 }
}

// A hard row that a full reading breaks.
pub fn breaks(row: Row, reading: u64) -> bool
    ensures { result ≡ breaks row reading }
{
    is_hard(row) & !holds(row.lits, reading)
}

// The refusal that row i of a table earns, 5 before 6.
pub fn row_why(variables: u64, i: u64, row: Row) -> Result<(), Refusal>
    ensures { result ≡ row_why variables i row }
{
    if bad_lits(variables, row.lits) {
        return Err(Refusal::BadLiterals(i));
    }
    if bad_weight(row) {
        return Err(Refusal::BadWeight(i));
    }
    Ok(())
}

// A full reading makes one of the literals true.
pub fn holds(l: Lits, reading: u64) -> bool
    ensures { result ≡ holds l reading }
{
    (l.positive & reading != 0) | (masks::without(l.negative, reading) != 0)
}

// A variable both ways or above the count.
pub fn bad_lits(variables: u64, l: Lits) -> bool
    ensures { result ≡ bad_lits variables l }
{
    (l.positive & l.negative != 0)
        | !(masks::below(l.positive, variables) & masks::below(l.negative, variables))
}

// A mark that is none, or a hard row with a weight.
pub fn bad_mark(row: Row) -> bool
    ensures { result ≡ bad_mark row }
{
    (row.mark > Row::HARD) | (is_hard(row) & (row.weight != 0))
}

// A bad mark, or a soft row of weight 0 or over the limit.
pub fn bad_weight(row: Row) -> bool
    ensures { result ≡ bad_weight row }
{
    bad_mark(row) | (!is_hard(row) & ((row.weight == 0) | (row.weight > Row::MOST_WEIGHT)))
}
