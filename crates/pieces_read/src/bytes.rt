// Single bytes of a text. Past its end a byte reads as 0, which the form never holds, so that no place needs a bound.
ghost use Rattle.std.specs.Prelude.{◌≡◌, ◌+◌, get_or};
ghost use Rattle.rules.specs.Reader.{stands, is_digit};

pub fn byte_at(s: &[u8], at: usize) -> u8
    ensures { result ≡ get_or s.now at 0 }
{
    if at < s.len() { s[at] } else { 0 }
}

// The byte that stands i places behind a place.
pub fn byte_past(s: &[u8], at: usize, i: usize) -> u8
    ensures { result ≡ get_or s.now (at + i) 0 }
{
    if at < s.len() {
        if i < s.len() - at { s[at + i] } else { 0 }
    } else {
        0
    }
}

pub fn is_digit(b: u8) -> bool
    ensures { result ≡ is_digit b }
{
    (b'0' <= b) & (b < b'0' + 10)
}

// A key stands at a place.
pub fn stands(s: &[u8], at: usize, key: &[u8]) -> bool
    ensures { result ≡ stands s.now at key.now }
{
    key.iter()
        .enumerate()
        .all(|(i, b)| byte_past(s, at, i) == *b)
}
