// The first three lines, and what is due by them before the rows are judged.
ghost use Rattle.std.specs.Prelude.{◌≡◌, ◌≤◌, Ok};
ghost use Rattle.rules.specs.Table.{most_rows};
ghost use Rattle.rules.specs.Reader.{three_lines, head_at, head_why};

use crate::rows;
use literals::Literal;
use pieces_read::inner;
use rules::{HeadRead, Refusal, Row, TextRead};

// The first three lines.
pub fn head_at(s: &[u8]) -> Result<HeadRead, u64>
    ensures { result ≡ head_at s.now }
{
    let (variables, next) = inner::number_line(s, 0, b"vars=").ok_or(1u64)?;
    let (budget, next) = inner::number_line(s, next, b"budget=").ok_or(2u64)?;
    let (rows, next) = inner::number_line(s, next, b"rows=").ok_or(3u64)?;
    Ok(HeadRead {
        variables,
        budget,
        rows,
        next,
    })
}

// In the reader's order: 1, 9, 2, 4, the rest.
pub fn head_why(
    most: usize,
    s: &[u8],
    room: usize,
    variables: u64,
    budget: u64,
    rows: u64,
    from: usize,
) -> Result<(), Refusal>
    requires { most ≤ most_rows }
    ensures { result ≡ head_why most s.now room (Ok (three_lines variables budget rows from)) }
{
    if variables > Literal::MOST {
        return Err(Refusal::TooManyVariables);
    }
    if budget > TextRead::MOST_BUDGET {
        return Err(Refusal::BadBudget);
    }
    let count = rows as usize;
    if count > most {
        return Err(Refusal::BadTable);
    }
    if room < Row::WORDS * count {
        return Err(Refusal::NoRoom);
    }
    rows::rest_why(s, from, rows)
}
