// The answer to a competition file, both in lent bytes. What is read and what is written stand in the rules; this room only puts reader, desk,
// search and lines one behind the other.
#![tactic(auto)]

ghost use Rattle.std.specs.Prelude.{◌≡◌};
ghost use Rattle.rules.specs.WcnfProgram.{wcnf_answered, wcnf_answer_out};

use pieces_written::store;
use rules::Refusal;
use wcnf_lines::WcnfAnswerText;

mod inputs;

// How many bytes the answer to the input has, which then stand at the front of those lent; or 4, and they are as they were.
pub fn answer_wcnf(input: &[u8], output: &mut [u8]) -> Result<usize, Refusal>
    ensures answer { result ≡ wcnf_answered input.now output.old }
    ensures bytes { output.new ≡ wcnf_answer_out input.now output.old }
{
    let text = WcnfAnswerText {
        outcome: inputs::outcome_of(input),
    };
    store(&text, output)
}
