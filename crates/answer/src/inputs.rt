// From input to outcome: 19, the reader, load, then the search on a desk with room for just the rows that were read. The text is read
// into the words that the rows have on that desk.
ghost use Rattle.std.specs.Prelude.{◌≡◌};
ghost use Rattle.rules.specs.Program.{outcome_of};

use outcomes::WORDS;
use outcomes::inner::search_read;
use reader::inner::read_up_to;
use rules::{Desk, Outcome, Refusal, TextRead};

pub fn outcome_of(input: &[u8]) -> Result<Outcome, Refusal>
    ensures { result ≡ outcome_of input.now }
{
    if input.len() > TextRead::MOST_INPUT {
        return Err(Refusal::InputTooLong);
    }
    let mut words = [0u64; WORDS];
    let TextRead {
        variables,
        budget,
        rows,
    } = read_up_to(TextRead::MOST_INPUT_ROWS, input, &mut words[Desk::HEAD..])?;
    search_read(variables, budget as u32, rows, &mut words)
}
