// The search: a walk over the undecided variables, true before false, that keeps the best reading met within a budget of nodes.
#![tactic(auto)]

ghost use Rattle.std.specs.Prelude.{◌≡◌};
ghost use Rattle.rules.specs.Walk.{walk_in, found_by, searched};

use formed::judge;
use groups::inner::WORDS;
use judged::inner::JudgedDesk;
use rules::{Choice, Found, Refusal};

mod depth;
pub mod inner;
mod states;

// What is found, with words of its own lent to the walk where it hunts for groups.
fn found_by_choice(desk: JudgedDesk<'_>, choice: Choice, budget: u32) -> Found
    ensures { result ≡ found_by (walk_in desk.entry.words.now choice budget) }
{
    match choice {
        Choice::Units => inner::found_on(desk, Choice::Units, budget, &mut []),
        Choice::Groups => {
            let mut work = [0u64; WORDS];
            inner::found_on(desk, Choice::Groups, budget, &mut work)
        }
    }
}

// The search of a desk by the bound that is chosen, or the refusal. The desk is only read.
pub fn search(desk: &[u64], choice: Choice, budget: u32) -> Result<Found, Refusal>
    ensures { result ≡ searched desk.now choice budget }
{
    let judged = judge(desk).ok_or(Refusal::BadDesk)?;
    Ok(found_by_choice(judged, choice, budget))
}
