// Stored where there is room, from a place far below 2^32.
ghost use Rattle.std.specs.Prelude.{◌+◌, ◌≤◌, ◌^◌};
ghost use Rattle.literals.specs.Literal.{most_variables};
ghost use Rattle.rules.specs.Wcnf.{spaced_lits};
ghost use Rattle.text_laws.specs.Lengths.{most_lits};
ghost use Rattle.pieces_written.specs.Stored.{Stored};

use literals::Lits;
use pieces_written::inner::put_literal;

// The literals on the first n variables, rising.
pub fn put_spaced_lits(out: &mut [u8], at: usize, n: u64, l: Lits) -> usize
    requires { (at + most_lits n ≤ 2 ^ 32) × (n ≤ most_variables) }
    ensures { Stored out.old at (spaced_lits 0 n l) result out.new }
{
    let mut next = at;
    for v in 0..n {
        next = put_literal(out, next, false, v, l);
    }
    next
}
