// The writer of competition files, over lent words and bytes: the table judged as any table is, then the room, then the bytes.
#![tactic(auto)]

ghost use Rattle.std.specs.Prelude.{◌≡◌};
ghost use Rattle.rules.specs.Wcnf.{wcnf_written, wcnf_out};

use pieces_written::store;
use rules::Refusal;
use texts::FileText;

mod clauses;
mod texts;

// How many bytes the file has, which then stand at the front of those lent; or why none was written.
pub fn write_wcnf(variables: u64, table: &[u64], out: &mut [u8]) -> Result<usize, Refusal>
    ensures answer { result ≡ wcnf_written variables table.now out.old }
    ensures bytes { out.new ≡ wcnf_out variables table.now out.old }
{
    tables::table_why(variables, table)?;
    let text = FileText { variables, table };
    store(&text, out)
}
