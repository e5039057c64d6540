// The reader of document 01's text, over lent bytes and words: the first three lines, then the rows, judged whole before the first word
// is stored.
#![tactic(auto)]

ghost use Rattle.std.specs.Prelude.{◌≡◌, length};
ghost use Rattle.rules.specs.Table.{most_rows};
ghost use Rattle.rules.specs.Reader.{text_read, read_table};

use rules::{Refusal, Row, TextRead};

mod heads;
pub mod inner;
mod rows;

// What the text says beside its rows, with the rows' words at the front of the table; or why it is refused, with the table as found.
pub fn read(s: &[u8], table: &mut [u64]) -> Result<TextRead, Refusal>
    ensures answer { result ≡ text_read most_rows s.now (length table.old) }
    ensures words { table.new ≡ read_table most_rows s.now table.old }
{
    inner::read_up_to(Row::MOST, s, table)
}
