// A table whose rows were read into the words behind those for a desk's head.
ghost use Rattle.std.specs.Prelude.{◌≡◌, ◌+◌, ◌*◌, ◌≤◌, length, take, drop};
ghost use Rattle.rules.specs.Table.{row_words};
ghost use Rattle.rules.specs.Desk.{head_words};
ghost use Rattle.rules.specs.Program.{table_outcome};

use bound::inner::{decisions, losses_at};
use judged::inner::JudgedDesk;
use rules::{Choice, Desk, Outcome, Refusal, Row};

// The rows behind the head, loaded where they stand, bounded and searched.
fn search_rows(
    variables: u64,
    budget: u32,
    rows: u64,
    words: &mut [u64],
) -> Result<Outcome, Refusal>
    requires { length words.old ≡ head_words + row_words * rows }
    ensures { result ≡ table_outcome variables budget rows (drop head_words words.old) }
{
    desk::inner::load_front(variables, rows, words)?;
    let front = JudgedDesk { words };
    let p = decisions(front.words);
    let root = losses_at(front, p);
    let found = walk::inner::found_on(front, Choice::Units, budget, &mut []);
    Ok(Outcome {
        variables,
        root,
        found,
    })
}

// The first so many rows, searched on a desk with room for just those.
pub fn search_read(
    variables: u64,
    budget: u32,
    rows: u64,
    words: &mut [u64],
) -> Result<Outcome, Refusal>
    requires { head_words + row_words * rows ≤ length words.old }
    ensures { result ≡ table_outcome variables budget rows (take (row_words * rows) (drop head_words words.old)) }
{
    let n = Desk::HEAD + Row::WORDS * (rows as usize);
    search_rows(variables, budget, rows, &mut words[..n])
}
