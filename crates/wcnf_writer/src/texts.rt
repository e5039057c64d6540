// The competition file of a table that may be loaded.
ghost use Rattle.std.specs.Prelude.{◌≡◌, ◌≤◌};
ghost use Rattle.masks.specs.Sums.{sum};
ghost use Rattle.rules.specs.Table.{row_count, row_of, most_rows, most_weight};
ghost use Rattle.rules.specs.Wcnf.{wcnf_text};

use crate::clauses::put_clauses;
use pieces_written::{Text, inner};
use rules::Row;
use words::inner::row_in;

#[derive(Clone, Copy)]
pub struct FileText<'a> {
    pub variables: u64,
    pub table: &'a [u64],
    ghost few: { row_count table.now ≤ most_rows },
    ghost light: { sum (row_count table.now) (λ i. (row_of table.now i).weight) ≤ most_weight },
}

impl FileText<'_> {
    ghost use Rattle.rules.specs.Wcnf.{top_of};
    ghost use Rattle.pieces_written.specs.Stored.{Stored};
    ghost use Rattle.wcnf_writer.specs.Pieces.{header_text};

    // "top written as the weight sum plus one"
    fn top(&self) -> u64
        ensures { result ≡ top_of self.now.table.now }
    {
        let n = self.table.len() / Row::WORDS;
        let weights: u64 = (0..n)
            .map(|i| row_in(self.table, Row::WORDS * i).weight)
            .sum();
        weights + 1
    }

    fn put_header(&self, out: &mut [u8], clauses: u64, top: u64) -> usize
        ensures { Stored out.old 0 (header_text self.now.variables clauses top) result out.new }
    {
        let first = inner::put_key(out, 0, b"p wcnf ");
        let gap = inner::put_number(out, first, self.variables);
        let second = inner::put(out, gap, b' ');
        let third = inner::put_number(out, second, clauses);
        inner::put_number_line(out, third, b" ", top)
    }
}

impl Text for FileText<'_> {
    ghost bytes = { λ t. wcnf_text t.variables t.table.now };

    fn put(&self, out: &mut [u8]) -> usize {
        let m = self.table.len() / Row::WORDS;
        let top = self.top();
        let second = self.put_header(out, m as u64, top);
        put_clauses(out, second, top, self.table, m)
    }
}
