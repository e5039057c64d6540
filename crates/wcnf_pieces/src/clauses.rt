// A clause of a competition file: its weight, its literals in any order, a closing 0.
ghost use Rattle.std.specs.Prelude.{◌≡◌, length, false};
ghost use Rattle.literals.specs.Literal.{lits_of};
ghost use Rattle.literals.specs.Lits.{no_lits, together};
ghost use Rattle.rules.specs.WcnfReader.{members_from};
ghost use Rattle.wcnf_pieces.specs.Clauses.{signed_at, member_at, of_sign, closed_at, gathered, clause_at};

use crate::{ClauseRead, Gathered, SignedRead};
use literals::{Literal, Lits};
use values::bad_lits;

// A signed number: a minus stands before a negative one, which is not 0.
fn signed_at(s: &[u8], at: usize) -> Option<SignedRead>
    ensures { result ≡ signed_at s.now at }
{
    if pieces_read::byte_at(s, at) != b'-' {
        let (size, next) = pieces_read::number_at(s, at)?;
        return Some(SignedRead {
            size,
            negative: false,
            next,
        });
    }
    let (size, next) = pieces_read::number_at(s, at + 1)?;
    if size == 0 {
        return None;
    }
    Some(SignedRead {
        size,
        negative: true,
        next,
    })
}

// A signed number with a gap in front.
fn member_at(s: &[u8], at: usize) -> Option<SignedRead>
    ensures { result ≡ member_at s.now at }
{
    let gap = gaps_read::space_run(s, at);
    if gap == 0 {
        return None;
    }
    let from = at + gap;
    signed_at(s, from)
}

// The literal of a size and a sign, alone. A size that no variable has makes none.
fn lits_of_signed(size: u64, negative: bool) -> Lits
    ensures { result ≡ lits_of (of_sign negative size) }
{
    if Literal::MOST < size {
        return Lits::none();
    }
    let Some(literal) = Literal::new(size as i64) else {
        return Lits::none();
    };
    if negative {
        return literal.negated().lits();
    }
    literal.lits()
}

// One given twice counts once.
fn with_member(lits: Lits, one: Lits) -> Lits
    ensures { result ≡ together lits one }
{
    lits.together(one)
}

// What is behind the closing 0 is the line's end.
fn closed(s: &[u8], at: usize, lits: Lits, above: bool) -> Option<Gathered>
    ensures { result ≡ closed_at s.now at lits above }
{
    let ended = pieces_read::byte_at(s, at) == b'\n';
    if ended {
        let next = at + 1;
        return Some(Gathered { lits, above, next });
    }
    None
}

// The members up to the closing 0. There can be no more of them than bytes, so that the turns are counted.
fn members_from(s: &[u8], from: usize, variables: u64) -> Option<Gathered>
    ensures { result ≡ gathered variables no_lits false (members_from (length s.now) s.now from) }
{
    let mut lits = Lits::none();
    let mut above = false;
    let mut at = from;
    for _turn in 0..s.len() {
        let SignedRead {
            size,
            negative,
            next,
        } = member_at(s, at)?;
        if size == 0 {
            return closed(s, next, lits, above);
        }
        lits = with_member(lits, lits_of_signed(size, negative));
        above = above | (variables < size);
        at = next;
    }
    None
}

// A clause's line.
pub fn clause_at(s: &[u8], at: usize, variables: u64) -> Option<ClauseRead>
    ensures { result ≡ clause_at variables s.now at }
{
    let (weight, next) = pieces_read::number_at(s, at)?;
    let Gathered { lits, above, next } = members_from(s, next, variables)?;
    let bad = above | bad_lits(variables, lits);
    Some(ClauseRead {
        weight,
        lits,
        bad,
        next,
    })
}
