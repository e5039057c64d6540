// The reader for a caller who takes fewer rows than may be loaded.
ghost use Rattle.std.specs.Prelude.{◌≡◌, ◌≤◌, length};
ghost use Rattle.rules.specs.Table.{most_rows};
ghost use Rattle.rules.specs.Reader.{text_read, read_table};
ghost use Rattle.reader.specs.Rest.{read_behind, stored_behind};

use crate::{heads, rows};
use rules::{HeadRead, Refusal, TextRead};

// The rest of a text whose first three lines are these, with what follows them from a place on.
fn read_rest(
    most: usize,
    s: &[u8],
    table: &mut [u64],
    variables: u64,
    budget: u64,
    rows: u64,
    from: usize,
) -> Result<TextRead, Refusal>
    requires { most ≤ most_rows }
    ensures answer { result ≡ read_behind most s.now (length table.old) variables budget rows from }
    ensures words { table.new ≡ stored_behind most s.now table.old variables budget rows from }
{
    heads::head_why(most, s, table.len(), variables, budget, rows, from)?;
    rows::store_rows(s, from, rows as usize, table);
    Ok(TextRead {
        variables,
        budget,
        rows,
    })
}

// A text of so many rows at most: what it says beside them, with the rows' words at the front of the table; or why it is refused, with the
// table as found.
pub fn read_up_to(most: usize, s: &[u8], table: &mut [u64]) -> Result<TextRead, Refusal>
    requires { most ≤ most_rows }
    ensures answer { result ≡ text_read most s.now (length table.old) }
    ensures words { table.new ≡ read_table most s.now table.old }
{
    let HeadRead {
        variables,
        budget,
        rows,
        next,
    } = heads::head_at(s).map_err(Refusal::BadText)?;
    read_rest(most, s, table, variables, budget, rows, next)
}
