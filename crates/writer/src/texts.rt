// The text of a table that may be loaded.
ghost use Rattle.std.specs.Prelude.{◌≡◌, ◌≤◌};
ghost use Rattle.rules.specs.Table.{row_count, most_rows};
ghost use Rattle.rules.specs.Text.{table_text};

use crate::rows::put_rows;
use pieces_written::Text;
use pieces_written::inner::put_number_line;
use rules::Row;

#[derive(Clone, Copy)]
pub struct TableText<'a> {
    pub variables: u64,
    pub budget: u64,
    pub table: &'a [u64],
    ghost few: { row_count table.now ≤ most_rows },
}

impl TableText<'_> {
    ghost use Rattle.text_laws.specs.Pieces.{head_lines};
    ghost use Rattle.pieces_written.specs.Stored.{Stored};

    // The first three lines.
    fn put_head(&self, out: &mut [u8], rows: u64) -> usize
        ensures { Stored out.old 0 (head_lines self.now.variables self.now.budget rows) result out.new }
    {
        let second = put_number_line(out, 0, b"vars=", self.variables);
        let third = put_number_line(out, second, b"budget=", self.budget);
        put_number_line(out, third, b"rows=", rows)
    }
}

impl Text for TableText<'_> {
    ghost bytes = { λ t. table_text t.variables t.budget t.table.now };

    fn put(&self, out: &mut [u8]) -> usize {
        let m = self.table.len() / Row::WORDS;
        let fourth = self.put_head(out, m as u64);
        put_rows(out, fourth, self.table, m)
    }
}
