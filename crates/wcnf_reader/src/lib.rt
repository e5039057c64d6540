// The reader of competition files, over lent bytes and words: the header, then the clauses, judged whole before the first word is stored.
#![tactic(auto)]

ghost use Rattle.std.specs.Prelude.{◌≡◌, length};
ghost use Rattle.rules.specs.Table.{most_rows};
ghost use Rattle.rules.specs.WcnfReader.{wcnf_read, wcnf_table};

use rules::{Refusal, Row, WcnfRead};

mod clauses;
pub mod inner;

// What the text says beside its clauses, with the rows' words at the front of the table; or why it is refused, with the table as found.
pub fn read_wcnf(s: &[u8], table: &mut [u64]) -> Result<WcnfRead, Refusal>
    ensures answer { result ≡ wcnf_read most_rows s.now (length table.old) }
    ensures words { table.new ≡ wcnf_table most_rows s.now table.old }
{
    inner::read_up_to(Row::MOST, s, table)
}
