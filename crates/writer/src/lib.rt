// The writer of document 01's text, over lent words and bytes: the table judged as any table is, then the room, then the bytes.
#![tactic(auto)]

ghost use Rattle.std.specs.Prelude.{◌≡◌};
ghost use Rattle.rules.specs.Text.{written, write_out};

use pieces_written::store;
use rules::Refusal;
use texts::TableText;

mod rows;
mod texts;

// How many bytes the text has, which then stand at the front of those lent; or why none was written.
pub fn write(variables: u64, budget: u32, table: &[u64], out: &mut [u8]) -> Result<usize, Refusal>
    ensures answer { result ≡ written variables budget table.now out.old }
    ensures bytes { out.new ≡ write_out variables budget table.now out.old }
{
    tables::table_why(variables, table)?;
    let text = TableText {
        variables,
        budget: budget as u64,
        table,
    };
    store(&text, out)
}
