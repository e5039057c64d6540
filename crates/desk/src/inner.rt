// A desk with room for just its rows, of which the lent words hold head and rows: what bound and walk read, where no step is to be made.
ghost use Rattle.std.specs.Prelude.{◌≡◌, ◌+◌, ◌*◌, length};
ghost use Rattle.rules.specs.Table.{row_words};
ghost use Rattle.rules.specs.Desk.{head_words};
ghost use Rattle.desk.specs.Front.{front_why, front_desk};

use crate::lay::lay_head;
use rules::{Desk, Refusal};
use tables::table_why;

// The rows behind the head, loaded where they stand. Such a desk has neither 3 nor 4 to refuse for.
pub fn load_front(variables: u64, rows: u64, words: &mut [u64]) -> Result<(), Refusal>
    requires { length words.old ≡ head_words + row_words * rows }
    ensures value { result ≡ front_why variables rows words.old }
    ensures words_after { words.new ≡ front_desk variables rows words.old }
{
    table_why(variables, &words[Desk::HEAD..])?;
    lay_head(variables, rows, rows, words);
    Ok(())
}
