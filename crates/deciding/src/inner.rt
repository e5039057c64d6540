// A decision that was judged fine, written.
ghost use Rattle.std.specs.Prelude.{◌≡◌, cond};
ghost use Rattle.std.specs.Int.Bits.{bit_or};
ghost use Rattle.rules.specs.Decide.{decide_step, decision_entry};
ghost use Rattle.words.specs.Room.{EntryLeft};

use literals::Literal;
use rules::{Desk, Entry};
use words::inner::enter;

// The literal is decided.
pub fn decide_step(desk: &mut [u64], l: Literal)
    requires { EntryLeft desk.old }
    ensures { desk.new ≡ decide_step desk.old l.value }
{
    let bit = l.mask();
    let decided = desk[Desk::DECIDED] | bit;
    let truths = put_if(l.is_positive(), desk[Desk::TRUTHS], bit);
    enter(desk, decision_entry(l));
    desk[Desk::DECIDED] = decided;
    desk[Desk::TRUTHS] = truths;
}

// A mask with a bit put in, where it is to be.
fn put_if(on: bool, m: u64, bit: u64) -> u64
    ensures { result ≡ cond on (bit_or m bit) m }
{
    if on { m | bit } else { m }
}

// A decision's entry: 0, variable, 1 for true or 0 for false, thirteen zeros.
fn decision_entry(l: Literal) -> [u64; Entry::WORDS]
    ensures { result ≡ decision_entry l.value }
{
    let v = l.size();
    let value = l.is_positive() as u64;
    [0, v, value, 0, 0, 0, 0, 0, 0, 0, 0, 0, 0, 0, 0, 0]
}
