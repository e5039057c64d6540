// The weight of a reading of a table.
ghost use Rattle.std.specs.Prelude.{◌≡◌, not, ◌*◌, ◌≤◌, length};
ghost use Rattle.masks.specs.Sums.{sum, every};
ghost use Rattle.rules.specs.Table.{row_words, most_weight, row_of, given_up, breaks, weighed, weigh_why};

use crate::judge::table_why;
use rules::{Refusal, Row, Weight};
use values::breaks;
use words::inner::row_in;

// What a full reading weighs, and whether every hard row holds, or the refusal.
pub fn weight_of(variables: u64, table: &[u64], reading: u64) -> Result<Weight, Refusal>
    ensures { result ≡ weighed variables table.now reading }
{
    weigh_why(variables, table, reading)?;
    let n = table.len() / Row::WORDS;
    Ok(Weight {
        weight: given_up(table, n, reading),
        hold: hard_hold(table, n, reading),
    })
}

fn weigh_why(variables: u64, table: &[u64], reading: u64) -> Result<(), Refusal>
    ensures { result ≡ weigh_why variables table.now reading }
{
    table_why(variables, table)?;
    if !masks::below(reading, variables) {
        return Err(Refusal::BadReading);
    }
    Ok(())
}

// The weights of those of the first n rows that the reading doesn't satisfy.
fn given_up(table: &[u64], n: usize, reading: u64) -> u64
    requires n_in_bounds { row_words * n ≤ length table.now }
    requires i_bound { sum n (λ i. (row_of table.now i).weight) ≤ most_weight }
    ensures { result ≡ sum n (λ i. given_up (row_of table.now i) reading) }
{
    (0..n)
        .map(|i| values::given_up(row_in(table, Row::WORDS * i), reading))
        .sum()
}

// The reading breaks none of the first n rows that is hard.
fn hard_hold(table: &[u64], n: usize, reading: u64) -> bool
    requires { row_words * n ≤ length table.now }
    ensures { result ≡ every n (λ i. not (breaks (row_of table.now i) reading)) }
{
    (0..n).all(|i| !breaks(row_in(table, Row::WORDS * i), reading))
}
