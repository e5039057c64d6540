// The rows of a table, written one behind the other.
ghost use Rattle.std.specs.Prelude.{◌+◌, ◌*◌, ◌≤◌, ◌^◌, length};
ghost use Rattle.rules.specs.Table.{row_words};
ghost use Rattle.rules.specs.Text.{row_text, rows_text};
ghost use Rattle.text_laws.specs.Lengths.{most_row};
ghost use Rattle.pieces_written.specs.Stored.{Stored};

use literals::Literal;
use pieces_written::inner;
use rules::Row;

// A row's three lines.
fn put_row(out: &mut [u8], at: usize, row: Row) -> usize
    requires { at + most_row ≤ 2 ^ 32 }
    ensures { Stored out.old at (row_text row) result out.new }
{
    let weight = row.weight;
    let mark = row.mark;
    let lits = row.lits;
    let second = inner::put_number_line(out, at, b"weight=", weight);
    let third = inner::put_number_line(out, second, b"hard=", mark);
    inner::put_lits_line(out, third, b"lits=", Literal::MOST, lits)
}

// The first m rows.
pub fn put_rows(out: &mut [u8], at: usize, table: &[u64], m: usize) -> usize
    requires { (at + most_row * m ≤ 2 ^ 32) × (row_words * m ≤ length table.now) }
    ensures { Stored out.old at (rows_text table.now m) result out.new }
{
    let mut next = at;
    for i in 0..m {
        let row = words::inner::row_in(table, Row::WORDS * i);
        next = put_row(out, next, row);
    }
    next
}
