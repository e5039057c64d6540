// How a caller in C is told what a call came to: a judgement as one number, what a search found as five words, what a reading weighs as two.
#![tactic(auto)]

ghost use Rattle.std.specs.Prelude.{◌≡◌, [], ◌∷◌};
ghost use Rattle.telling.specs.Told.{told_near, status_word, found_words, hold_word};

use rules::{Best, Found, Refusal, Status};
use values::numbered;

pub mod inner;

// The weight of a reading, and 1 where every hard row holds.
pub fn weighed_words(weight: u64, hold: bool) -> [u64; 2]
    ensures { result ≡ weight ∷ hold_word hold ∷ [] }
{
    [weight, hold as u64]
}

// Status, how many readings are kept, weight, reading, nodes.
pub fn found_words(f: Found) -> [u64; 5]
    ensures { result ≡ found_words f }
{
    let s = f.status;
    let status = status_word(s);
    let best = f.best;
    match best {
        None => [status, 0, 0, 0, f.nodes],
        Some(Best { weight, reading }) => [status, 1, weight, reading, f.nodes],
    }
}

// The last place for which there is room above the low byte.
const MOST_PLACE: u64 = 72_057_594_037_927_935;

// A judgement as one number, whatever its place.
pub fn tell_near(j: Result<(), Refusal>) -> u64
    ensures { result ≡ told_near j }
{
    match j {
        Ok(()) => 0,
        Err(why) => {
            let told = numbered(why);
            if told.1 < MOST_PLACE {
                told.0 + 256 * told.1
            } else {
                told.0 + 256 * MOST_PLACE
            }
        }
    }
}

fn status_word(s: Status) -> u64
    ensures { result ≡ status_word s }
{
    match s {
        Status::Done => 0,
        Status::Stopped => 1,
        Status::Impossible => 2,
    }
}
