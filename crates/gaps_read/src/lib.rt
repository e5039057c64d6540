// Gaps of spaces, numbers behind them, and the end of a line that is passed over.
#![tactic(auto)]

ghost use Rattle.std.specs.Prelude.{◌≡◌, ◌-◌, length};
ghost use Rattle.rules.specs.WcnfReader.{space_run, parted_at, feed_from};

// How many spaces stand from the place on.
pub fn space_run(s: &[u8], at: usize) -> usize
    ensures { result ≡ space_run s.now at (length s.now) }
{
    let Some(rest) = s.get(at..) else {
        return 0;
    };
    rest.iter().take_while(|b| **b == b' ').count()
}

// A number with a gap in front, and the place behind it.
pub fn parted_at(s: &[u8], at: usize) -> Option<(u64, usize)>
    ensures { result ≡ parted_at s.now at }
{
    let gap = space_run(s, at);
    if gap == 0 {
        return None;
    }
    let from = at + gap;
    pieces_read::number_at(s, from)
}

// The place of the first LF from a place on, or the text's end.
pub fn feed_from(s: &[u8], from: usize) -> usize
    ensures { result ≡ feed_from (length s.now - from) s.now from }
{
    // Place by place: bytes counted by `take_while` were seen to take up to half as long again.
    for at in from..s.len() {
        if s[at] == b'\n' {
            return at;
        }
    }
    from.max(s.len())
}
