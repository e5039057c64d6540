// What a line is read of, where the caller has seen to its key.
ghost use Rattle.std.specs.Prelude.{◌≡◌, ◌-◌, length, get_or};
ghost use Rattle.text_laws.specs.Keys.{equal_sign};
ghost use Rattle.rules.specs.Reader.{number_line};

use crate::{bytes, numbers};

// A line of a key and a number. A key ends in its sign of equality.
pub fn number_line(s: &[u8], at: usize, key: &[u8]) -> Option<(u64, usize)>
    requires { get_or key.now (length key.now - 1) 0 ≡ equal_sign }
    ensures { result ≡ number_line s.now at key.now }
{
    if !bytes::stands(s, at, key) {
        return None;
    }
    let from = at + key.len();
    let (value, next) = numbers::number_at(s, from)?;
    let b = bytes::byte_at(s, next);
    if b == b'\n' {
        Some((value, next + 1))
    } else {
        None
    }
}
