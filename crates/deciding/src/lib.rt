// Deciding a literal: judged whole, then written.
#![tactic(auto)]

ghost use Rattle.std.specs.Prelude.{◌≡◌, true};
ghost use Rattle.literals.specs.Literal.{is_literal};
ghost use Rattle.rules.specs.Decide.{decide_why, decide_desk};
ghost use Rattle.deciding.specs.Order.{step_why, out_of_reach};

use formed::well_formed;
use inner::decide_step;
use literals::Literal;
use rules::{Desk, Refusal, word};

pub mod inner;

// The literal is decided: a signed number, of any value.
pub fn decide(desk: &mut [u64], literal: i64) -> Result<(), Refusal>
    ensures value { result ≡ decide_why desk.old literal }
    ensures desk_after { desk.new ≡ decide_desk desk.old literal }
{
    step_why(desk)?;
    let l = Literal::new(literal).ok_or(Refusal::BadLiteral)?;
    if out_of_reach(desk, l) {
        return Err(Refusal::BadLiteral);
    }
    decide_step(desk, l);
    Ok(())
}

// 10 and 11.
fn step_why(desk: &[u64]) -> Result<(), Refusal>
    ensures { result ≡ step_why desk.now }
{
    if !well_formed(desk) {
        return Err(Refusal::BadDesk);
    }
    if Desk::MOST_STEPS <= word(desk, Desk::STANDING) {
        return Err(Refusal::TooManySteps);
    }
    Ok(())
}

// Above the count, or already decided.
fn out_of_reach(desk: &[u64], l: Literal) -> bool
    requires { is_literal l.value ≡ true }
    ensures { result ≡ out_of_reach desk.now l.value }
{
    let v = l.size();
    (v > word(desk, Desk::VARIABLES)) | masks::has(word(desk, Desk::DECIDED), v - 1)
}
