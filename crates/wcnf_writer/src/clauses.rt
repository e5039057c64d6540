// The clauses of a table, written one behind the other.
ghost use Rattle.std.specs.Prelude.{◌≡◌, ◌+◌, ◌*◌, ◌≤◌, ◌^◌, length};
ghost use Rattle.rules.specs.Table.{row_words};
ghost use Rattle.rules.specs.Wcnf.{clause_text, clauses_text};
ghost use Rattle.pieces_written.specs.Stored.{Stored};
ghost use Rattle.wcnf_writer.specs.Pieces.{line_weight, most_clause};

use literals::Literal;
use pieces_written::inner;
use rules::Row;
use spaced_written::inner::put_spaced_lits;

// A hard row's clause has top for its weight.
fn line_weight(top: u64, row: Row) -> u64
    ensures { result ≡ line_weight top row }
{
    if values::is_hard(row) {
        return top;
    }
    row.weight
}

// A clause's line.
fn put_clause(out: &mut [u8], at: usize, top: u64, row: Row) -> usize
    requires { at + most_clause ≤ 2 ^ 32 }
    ensures { Stored out.old at (clause_text top row) result out.new }
{
    let weight = line_weight(top, row);
    let lits = row.lits;
    let from = inner::put_number(out, at, weight);
    let end = put_spaced_lits(out, from, Literal::MOST, lits);
    inner::put_key(out, end, b" 0\n")
}

// The first m clauses.
pub fn put_clauses(out: &mut [u8], at: usize, top: u64, table: &[u64], m: usize) -> usize
    requires { (at + most_clause * m ≤ 2 ^ 32) × (row_words * m ≤ length table.now) }
    ensures { Stored out.old at (clauses_text top table.now m) result out.new }
{
    let mut next = at;
    for i in 0..m {
        let row = words::inner::row_in(table, Row::WORDS * i);
        next = put_clause(out, next, top, row);
    }
    next
}
