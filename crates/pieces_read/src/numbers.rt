// A number of a text: one to ten digits, no leading zero.
ghost use Rattle.std.specs.Prelude.{◌≡◌, suc, ◌≤◌};
ghost use Rattle.rules.specs.Text.{most_digits};
ghost use Rattle.rules.specs.Reader.{digit_run, value_of, number_at};

use crate::bytes;
use rules::TextRead;

// How many digits stand from the place on, counted to one more than a number may have.
fn digit_run(s: &[u8], at: usize) -> usize
    ensures { result ≡ digit_run s.now at (suc most_digits) }
{
    for n in 0..=TextRead::DIGITS {
        let b = bytes::byte_past(s, at, n);
        if !bytes::is_digit(b) {
            return n;
        }
    }
    TextRead::DIGITS + 1
}

// The number that the first n of these digits make.
fn value_of(s: &[u8], at: usize, n: usize) -> u64
    requires { (n ≤ most_digits) × (n ≤ digit_run s.now at (suc most_digits)) }
    ensures { result ≡ value_of s.now at n }
{
    let mut value = 0;
    for i in 0..n {
        let b = bytes::byte_past(s, at, i);
        let digit = wide(b) - 48;
        value = value * 10 + digit;
    }
    value
}

fn wide(b: u8) -> u64
    ensures { result ≡ b }
{
    b as u64
}

pub fn number_at(s: &[u8], at: usize) -> Option<(u64, usize)>
    ensures { result ≡ number_at s.now at }
{
    let n = digit_run(s, at);
    let first = bytes::byte_at(s, at);
    if (1 <= n) & ((n <= TextRead::DIGITS) & ((n == 1) | (first != b'0'))) {
        let value = value_of(s, at, n);
        Some((value, at + n))
    } else {
        None
    }
}
