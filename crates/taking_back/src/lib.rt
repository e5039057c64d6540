// Taking back the last standing step: judged whole, then undone.
#![tactic(auto)]

ghost use Rattle.std.specs.Prelude.{◌≡◌};
ghost use Rattle.rules.specs.TakeBack.{take_back_why, take_back_desk};

use formed::well_formed;
use inner::take_back_step;
use last_entry::inner::bad_last;
use rules::{Desk, Refusal, word};

pub mod inner;

// Undoes the last standing step.
pub fn take_back(desk: &mut [u64]) -> Result<(), Refusal>
    ensures value { result ≡ take_back_why desk.old }
    ensures desk_after { desk.new ≡ take_back_desk desk.old }
{
    take_back_why(desk)?;
    take_back_step(desk);
    Ok(())
}

fn take_back_why(desk: &[u64]) -> Result<(), Refusal>
    ensures { result ≡ take_back_why desk.now }
{
    if !well_formed(desk) {
        return Err(Refusal::BadDesk);
    }
    if word(desk, Desk::STANDING) == 0 {
        return Err(Refusal::NothingStands);
    }
    if bad_last(desk) {
        return Err(Refusal::BadDesk);
    }
    Ok(())
}
