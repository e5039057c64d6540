// What lines are written of. A byte is stored only where there is room, so that a run over no room at all tells how long a text is.
// A place that a text of this form reaches is far below the limit that each function asks for.
ghost use Rattle.std.specs.Prelude.{◌+◌, ◌<◌, ◌≤◌, ◌^◌, [], ◌∷◌, length};
ghost use Rattle.literals.specs.Literal.{most_variables};
ghost use Rattle.rules.specs.Text.{digits, number_text, most_digits, lits_text};
ghost use Rattle.text_laws.specs.Pieces.{line_text, list_line, parting, literal_piece};
ghost use Rattle.text_laws.specs.Lengths.{most_number_end, most_literal, most_lits, most_lits_end};
ghost use Rattle.pieces_written.specs.Stored.{Stored};

use literals::Lits;
use rules::TextRead;

pub fn put(out: &mut [u8], at: usize, b: u8) -> usize
    requires { at < 2 ^ 32 }
    ensures { Stored out.old at (b ∷ []) result out.new }
{
    if at < out.len() {
        out[at] = b;
    }
    at + 1
}

// A key, a word, anything that is known.
pub fn put_key(out: &mut [u8], at: usize, key: &[u8]) -> usize
    requires { at + length key.now ≤ 2 ^ 32 }
    ensures { Stored out.old at key.now result out.new }
{
    let mut next = at;
    for &b in key {
        next = put(out, next, b);
    }
    next
}

// A number's digits, at most `most`.
fn put_digits(out: &mut [u8], at: usize, most: usize, n: u64) -> usize
    requires { at + most ≤ 2 ^ 32 }
    ensures { Stored out.old at (digits most n) result out.new }
{
    if most == 0 {
        return at;
    }
    if n < 10 {
        let b = n as u8;
        return put(out, at, b'0' + b);
    }
    let next = put_digits(out, at, most - 1, n / 10);
    let b = (n % 10) as u8;
    put(out, next, b'0' + b)
}

pub fn put_number(out: &mut [u8], at: usize, n: u64) -> usize
    requires { at + most_digits ≤ 2 ^ 32 }
    ensures { Stored out.old at (number_text n) result out.new }
{
    put_digits(out, at, TextRead::DIGITS, n)
}

// A line of a key and a number.
pub fn put_number_line(out: &mut [u8], at: usize, key: &[u8], n: u64) -> usize
    requires { at + length key.now + most_number_end ≤ 2 ^ 32 }
    ensures { Stored out.old at (line_text key.now n) result out.new }
{
    let from = put_key(out, at, key);
    let end = put_number(out, from, n);
    put(out, end, b'\n')
}

// Literals are parted by one space.
fn put_parting(out: &mut [u8], at: usize, first: bool) -> usize
    requires { at < 2 ^ 32 }
    ensures { Stored out.old at (parting first) result out.new }
{
    if first {
        return at;
    }
    put(out, at, b' ')
}

// The literal on the variable with bit v, where the set has one.
pub fn put_literal(out: &mut [u8], at: usize, first: bool, v: u64, l: Lits) -> usize
    requires { (at + most_literal ≤ 2 ^ 32) × (v < most_variables) }
    ensures { Stored out.old at (literal_piece first v l) result out.new }
{
    if masks::has(l.positive, v) {
        let from = put_parting(out, at, first);
        return put_number(out, from, v + 1);
    }
    if masks::has(l.negative, v) {
        let sign = put_parting(out, at, first);
        let from = put(out, sign, b'-');
        return put_number(out, from, v + 1);
    }
    at
}

// The literals on the first n variables, rising.
pub fn put_lits(out: &mut [u8], at: usize, n: u64, l: Lits) -> usize
    requires { (at + most_lits n ≤ 2 ^ 32) × (n ≤ most_variables) }
    ensures { Stored out.old at (lits_text n l) result out.new }
{
    let mut next = at;
    for v in 0..n {
        let first = next == at;
        next = put_literal(out, next, first, v, l);
    }
    next
}

// A line of a key and the literals on the first n variables.
pub fn put_lits_line(out: &mut [u8], at: usize, key: &[u8], n: u64, l: Lits) -> usize
    requires { (at + length key.now + most_lits_end n ≤ 2 ^ 32) × (n ≤ most_variables) }
    ensures { Stored out.old at (list_line key.now n l) result out.new }
{
    let from = put_key(out, at, key);
    let end = put_lits(out, from, n, l);
    put(out, end, b'\n')
}
