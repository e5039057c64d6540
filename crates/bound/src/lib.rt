// The bound of a desk: lost, and what is foreseen, by the units of each undecided variable or by groups.
#![tactic(auto)]

ghost use Rattle.std.specs.Prelude.{◌≡◌};
ghost use Rattle.rules.specs.Choice.{losses_by, bounded};

use formed::judge;
use groups::inner::WORDS;
use judged::inner::JudgedDesk;
use rules::{Choice, Losses, Part, Refusal};

pub mod inner;

// Conceded, lost beyond that and foreseen, by the bound that is chosen. A hunt for groups works in words of its own.
fn losses_by(desk: JudgedDesk<'_>, choice: Choice, p: Part) -> Losses
    ensures { result ≡ losses_by choice desk.entry.words.now p }
{
    match choice {
        Choice::Units => inner::losses_at(desk, p),
        Choice::Groups => {
            let mut work = [0u64; WORDS];
            groups::inner::losses_at(desk, p, &mut work)
        }
    }
}

// Where the bound of a desk comes from, under its own decisions, or the refusal.
pub fn bound(desk: &[u64], choice: Choice) -> Result<Losses, Refusal>
    ensures { result ≡ bounded desk.now choice }
{
    let judged = judge(desk).ok_or(Refusal::BadDesk)?;
    let p = inner::decisions(desk);
    Ok(losses_by(judged, choice, p))
}
