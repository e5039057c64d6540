// The program's answer: a text in, a text out, both in lent bytes. What is read and what is written stand in document 01's words in
// the rules; this room only puts reader, desk, search and lines one behind the other.
#![tactic(auto)]

ghost use Rattle.std.specs.Prelude.{◌≡◌};
ghost use Rattle.rules.specs.Program.{answered, answer_out};

use answer_lines::AnswerText;
use pieces_written::store;
use rules::Refusal;

mod inputs;

// How many bytes the answer to the input has, which then stand at the front of those lent; or 4, and they are as they were.
pub fn answer(input: &[u8], output: &mut [u8]) -> Result<usize, Refusal>
    ensures answer { result ≡ answered input.now output.old }
    ensures bytes { output.new ≡ answer_out input.now output.old }
{
    let text = AnswerText {
        outcome: inputs::outcome_of(input),
    };
    store(&text, output)
}
