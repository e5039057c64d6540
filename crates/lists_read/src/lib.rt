// The literals to the end of a line: parted by one space, variables strictly rising.
#![tactic(auto)]

ghost use Rattle.std.specs.Prelude.{◌≡◌, true, suc};
ghost use Rattle.literals.specs.Literal.{most_variables};
ghost use Rattle.literals.specs.Lits.{no_lits};
ghost use Rattle.rules.specs.Reader.{number_at, literal_of, literal_at, lits_from};
ghost use Rattle.lists_read.specs.Literals.{literal_read};

use literals::{Literal, Lits};
use pieces_read::{byte_at, number_at};

// The literal of the variable whose number stands at the place, above the last, and the place behind it.
fn variable_at(s: &[u8], from: usize, last: u64) -> Option<(Literal, usize)>
    ensures { result ≡ literal_read (literal_of true last (number_at s.now from)) }
{
    let (value, next) = number_at(s, from)?;
    let literal = Literal::new(value as i64)?;
    if last < value {
        Some((literal, next))
    } else {
        None
    }
}

// A minus stands before a negative one, which is the opposite of the literal behind it.
fn literal_at(s: &[u8], at: usize, last: u64) -> Option<(Literal, usize)>
    ensures { result ≡ literal_read (literal_at s.now at last) }
{
    if byte_at(s, at) != b'-' {
        return variable_at(s, at, last);
    }
    let (literal, next) = variable_at(s, at + 1, last)?;
    Some((literal.negated(), next))
}

// The literals from a place to the line's end. There can be one for each variable, so that the turns are counted.
pub fn lits_from(s: &[u8], from: usize) -> Option<(Lits, usize)>
    ensures { result ≡ lits_from (suc most_variables) s.now from 0 no_lits }
{
    let mut lits = Lits::none();
    let mut last = 0;
    let mut at = from;
    for _turn in 0..=Literal::MOST {
        let b = byte_at(s, at);
        if b == b'\n' {
            return Some((lits, at + 1));
        }
        if last != 0 {
            if b != b' ' {
                return None;
            }
            at += 1;
        }
        let (literal, next) = literal_at(s, at, last)?;
        lits = lits.together(literal.lits());
        last = literal.size();
        at = next;
    }
    None
}
