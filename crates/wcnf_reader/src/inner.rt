// The reader for a caller who takes fewer rows than may be loaded.
ghost use Rattle.std.specs.Prelude.{◌≡◌, ◌+◌, ◌≤◌, length};
ghost use Rattle.rules.specs.Table.{most_rows};
ghost use Rattle.rules.specs.WcnfReader.{wcnf_read, wcnf_table};
ghost use Rattle.wcnf_reader.specs.Behind.{read_behind, stored_behind};

use crate::clauses;
use rules::{Refusal, WcnfHead, WcnfRead};

// The rest of a text whose header says this, with what follows it from a place on.
fn read_rest(
    most: usize,
    s: &[u8],
    table: &mut [u64],
    variables: u64,
    clauses: u64,
    top: u64,
    from: usize,
    line: u64,
) -> Result<WcnfRead, Refusal>
    requires { (most ≤ most_rows) × (line ≤ length s.now + 1) }
    ensures answer { result ≡ read_behind most s.now (length table.old) variables clauses top from line }
    ensures words { table.new ≡ stored_behind most s.now table.old variables clauses top from line }
{
    clauses::figures_why(most, s, table.len(), variables, clauses, from, line)?;
    clauses::store_rows(s, from, clauses as usize, top, table);
    Ok(WcnfRead {
        variables,
        rows: clauses,
    })
}

// A text of so many clauses at most: what it says beside them, with the rows' words at the front of the table; or why it is refused, with
// the table as found.
pub fn read_up_to(most: usize, s: &[u8], table: &mut [u64]) -> Result<WcnfRead, Refusal>
    requires { most ≤ most_rows }
    ensures answer { result ≡ wcnf_read most s.now (length table.old) }
    ensures words { table.new ≡ wcnf_table most s.now table.old }
{
    let WcnfHead {
        variables,
        clauses,
        top,
        next,
        line,
    } = wcnf_headers::header_of(s).map_err(Refusal::BadText)?;
    read_rest(most, s, table, variables, clauses, top, next, line)
}
