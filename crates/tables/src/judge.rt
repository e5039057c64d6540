// Judging a table: its words, its rows in order, the sum of their weights.
ghost use Rattle.std.specs.Prelude.{◌≡◌, ◌*◌, ◌≤◌, length};
ghost use Rattle.rules.specs.Table.{row_words, bad_table, rows_why, table_why};
ghost use Rattle.tables.specs.Judge.{rows_and_sum_why};

use crate::inner::sum_over;
use literals::Literal;
use rules::{Refusal, Row};
use values::row_why;
use words::inner::row_in;

// Table words that are no whole rows, or too many of them.
pub fn bad_table(table: &[u64]) -> bool
    ensures { result ≡ bad_table table.now }
{
    (table.len() % Row::WORDS != 0) | (table.len() / Row::WORDS > Row::MOST)
}

// Whether an admissible table it is, for a count of variables, or the refusal.
pub fn table_why(variables: u64, table: &[u64]) -> Result<(), Refusal>
    ensures { result ≡ table_why variables table.now }
{
    if variables > Literal::MOST {
        return Err(Refusal::TooManyVariables);
    }
    if bad_table(table) {
        return Err(Refusal::BadTable);
    }
    rows_and_sum(variables, table)
}

// The rows in order with 5 before 6, then 7.
pub fn rows_and_sum(variables: u64, table: &[u64]) -> Result<(), Refusal>
    ensures { result ≡ rows_and_sum_why variables table.now }
{
    let n = table.len() / Row::WORDS;
    rows_why(variables, table, n)?;
    if sum_over(table, 0, n, 0) {
        return Err(Refusal::SumTooLarge);
    }
    Ok(())
}

// The first refusal among the first n rows.
fn rows_why(variables: u64, table: &[u64], n: usize) -> Result<(), Refusal>
    requires { row_words * n ≤ length table.now }
    ensures { result ≡ rows_why variables table.now n }
{
    for i in 0..n {
        row_why(variables, i as u64, row_in(table, Row::WORDS * i))?;
    }
    Ok(())
}
