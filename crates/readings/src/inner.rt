// The line of a reading, from a place far below 2^32, of at most 64 variables.
ghost use Rattle.std.specs.Prelude.{◌≡◌, ◌-◌, ◌+◌, ◌≤◌, ◌^◌};
ghost use Rattle.literals.specs.Literal.{most_variables};
ghost use Rattle.rules.specs.Text.{line};
ghost use Rattle.rules.specs.Program.{literals_of, reading_text};
ghost use Rattle.pieces_written.specs.Stored.{Stored};
ghost use Rattle.readings.specs.Line.{most_reading_line};

use literals::{Literal, Lits};
use pieces_written::inner;
use rules::Best;

// The first n variables.
fn first_of(n: u64) -> u64
    requires { n ≤ most_variables }
    ensures { result ≡ 2 ^ n - 1 }
{
    if n < Literal::MOST {
        let next = masks::single(n);
        next - 1
    } else {
        u64::MAX
    }
}

// One literal for each variable.
pub fn literals_of(variables: u64, reading: u64) -> Lits
    requires { variables ≤ most_variables }
    ensures { result ≡ literals_of variables reading }
{
    let all = first_of(variables);
    let negative = masks::without(all, reading);
    Lits {
        positive: reading,
        negative,
    }
}

pub fn put_reading(out: &mut [u8], at: usize, variables: u64, best: Option<Best>) -> usize
    requires most_reading_line_bound { at + most_reading_line ≤ 2 ^ 32 }
    requires variables_le_most_variables { variables ≤ most_variables }
    ensures { Stored out.old at (line "reading=" (reading_text variables best)) result out.new }
{
    match best {
        None => inner::put_key(out, at, b"reading=none\n"),
        Some(Best { weight: _, reading }) => {
            let lits = literals_of(variables, reading);
            inner::put_lits_line(out, at, b"reading=", variables, lits)
        }
    }
}
