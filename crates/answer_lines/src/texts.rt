// The answer to a text, as a text.
ghost use Rattle.std.specs.Prelude.{◌≤◌};
ghost use Rattle.std.specs.Result.{ForOk};
ghost use Rattle.literals.specs.Literal.{most_variables};
ghost use Rattle.rules.specs.Program.{outcome_text};

use crate::inner::put_outcome;
use pieces_written::Text;
use rules::{Outcome, Refusal};

#[derive(Clone, Copy)]
pub struct AnswerText {
    pub outcome: Result<Outcome, Refusal>,
    pub ghost few: { ForOk outcome (λ o. o.variables ≤ most_variables) },
}

impl Text for AnswerText {
    ghost bytes = { λ t. outcome_text t.outcome };

    fn put(&self, out: &mut [u8]) -> usize {
        put_outcome(out, self.outcome)
    }
}
