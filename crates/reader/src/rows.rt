// The rows of a text: judged from their first line on, then read once more and stored.
ghost use Rattle.std.specs.Prelude.{◌≡◌, true, ◌+◌, ◌*◌, ◌^◌, ◌≤◌, ◌<◌, length};
ghost use Rattle.std.proofs.lemmas.List.Edits.{sets};
ghost use Rattle.rules.specs.Table.{row_words, most_rows};
ghost use Rattle.rules.specs.Reader.{first_row_line};
ghost use Rattle.rules.specs.Reader.{lits_line, mark_line, row_at, rows_at, rest_why, words_of};
ghost use Rattle.text_laws.specs.Ends.{unbroken};
ghost use Rattle.reader.specs.Ends.{end_of};

use literals::Lits;
use pieces_read::inner;
use rules::{Refusal, Row};

// The line on which the rows begin, and the lines of a row.
const FIRST_LINE: u64 = 4;

const LINES: u64 = 3;

// A line of literals, and the place behind it.
fn lits_line(s: &[u8], at: usize) -> Option<(Lits, usize)>
    ensures { result ≡ lits_line s.now at }
{
    let key = b"lits=";
    if pieces_read::stands(s, at, key) {
        let from = at + key.len();
        lists_read::lits_from(s, from)
    } else {
        None
    }
}

// A line of a mark, 0 or 1, and the place behind it.
fn mark_line(s: &[u8], at: usize) -> Option<(u64, usize)>
    ensures { result ≡ mark_line s.now at }
{
    let (mark, next) = inner::number_line(s, at, b"hard=")?;
    if mark > Row::HARD {
        return None;
    }
    Some((mark, next))
}

// A row's three lines, of which the first has this number, and the place behind them; or the line that breaks the form.
fn row_at(s: &[u8], at: usize, line: u64) -> Result<(Row, usize), u64>
    requires { line < 2 ^ 32 }
    ensures { result ≡ row_at s.now at line }
{
    let (weight, next) = inner::number_line(s, at, b"weight=").ok_or(line)?;
    let (mark, next) = mark_line(s, next).ok_or(line + 1)?;
    let (lits, next) = lits_line(s, next).ok_or(line + 2)?;
    Ok((Row::marked(lits, weight, mark), next))
}

// Where the rows end, from their first line on; or the first of their lines that breaks the form.
fn rows_end(s: &[u8], from: usize, rows: u64) -> Result<usize, u64>
    requires { rows ≤ most_rows }
    ensures { result ≡ end_of (rows_at rows s.now from first_row_line) }
{
    let mut at = from;
    for i in 0..rows {
        let (_, next) = row_at(s, at, FIRST_LINE + LINES * i)?;
        at = next;
    }
    Ok(at)
}

// The rows, and that nothing follows them.
pub fn rest_why(s: &[u8], from: usize, rows: u64) -> Result<(), Refusal>
    requires { rows ≤ most_rows }
    ensures { result ≡ rest_why s.now rows (rows_at rows s.now from first_row_line) }
{
    let at = rows_end(s, from, rows).map_err(Refusal::BadText)?;
    if at == s.len() {
        return Ok(());
    }
    Err(Refusal::BadText(FIRST_LINE + LINES * rows))
}

// The rows once more, now stored: they were read to their end, and there is room.
pub fn store_rows(s: &[u8], from: usize, rows: usize, table: &mut [u64])
    requires { (row_words * rows ≤ length table.old) × (unbroken (rows_at rows s.now from first_row_line) ≡ true) }
    ensures { table.new ≡ sets table.old 0 (words_of (rows_at rows s.now from first_row_line)) }
{
    let mut at = from;
    for i in 0..rows {
        let Ok((row, next)) = row_at(s, at, FIRST_LINE) else {
            return;
        };
        words::inner::set_row_in(table, Row::WORDS * i, row);
        at = next;
    }
}
