// From input to outcome: 19, the reader, load, then the search, with the largest budget, on a desk with room for just the rows that were
// read. The file is read into the words that the rows have on that desk.
ghost use Rattle.std.specs.Prelude.{◌≡◌};
ghost use Rattle.rules.specs.WcnfProgram.{wcnf_outcome_of};

use outcomes::WORDS;
use outcomes::inner::search_read;
use rules::{Desk, Outcome, Refusal, TextRead, WcnfRead};
use wcnf_reader::inner::read_up_to;

pub fn outcome_of(input: &[u8]) -> Result<Outcome, Refusal>
    ensures { result ≡ wcnf_outcome_of input.now }
{
    if input.len() > TextRead::MOST_INPUT {
        return Err(Refusal::InputTooLong);
    }
    let mut words = [0u64; WORDS];
    let WcnfRead { variables, rows } = read_up_to(
        TextRead::MOST_INPUT_ROWS,
        input,
        &mut words[Desk::HEAD..],
    )?;
    search_read(variables, u32::MAX, rows, &mut words)
}
