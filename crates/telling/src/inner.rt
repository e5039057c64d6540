// A judgement as one number: 0, or the refusal's number in the low byte and its place above. Every place is a row or a line, and small.
ghost use Rattle.std.specs.Prelude.{◌≡◌, ◌<◌, ◌^◌};
ghost use Rattle.telling.specs.Told.{told};
ghost use Rattle.telling.specs.Room.{place_in};

use rules::Refusal;
use values::numbered;

pub fn tell(j: Result<(), Refusal>) -> u64
    requires { place_in j < 2 ^ 32 }
    ensures { result ≡ told j }
{
    match j {
        Ok(()) => 0,
        Err(why) => {
            let told = numbered(why);
            told.0 + 256 * told.1
        }
    }
}
