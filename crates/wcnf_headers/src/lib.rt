// The header of a competition file: comment lines first, then `p wcnf` with three figures.
#![tactic(auto)]

ghost use Rattle.std.specs.Prelude.{◌≡◌};
ghost use Rattle.rules.specs.WcnfReader.{header_at, header_of};
ghost use Rattle.wcnf_headers.specs.Headers.{figures_at};

use rules::WcnfHead;

// The header's line, which has this number.
fn header_at(s: &[u8], at: usize, line: u64) -> Result<WcnfHead, u64>
    ensures { result ≡ header_at s.now at line }
{
    if !pieces_read::stands(s, at, b"p ") {
        return Err(line);
    }
    let behind = at + 1;
    let gap = gaps_read::space_run(s, behind);
    let place = behind + gap;
    let name = b"wcnf";
    if !pieces_read::stands(s, place, name) {
        return Err(line);
    }
    let from = place + name.len();
    figures_at(s, from, line)
}

// The header's three figures, to the end of its line.
fn figures_at(s: &[u8], from: usize, line: u64) -> Result<WcnfHead, u64>
    ensures { result ≡ figures_at s.now from line }
{
    let (variables, next) = gaps_read::parted_at(s, from).ok_or(line)?;
    let (clauses, next) = gaps_read::parted_at(s, next).ok_or(line)?;
    let (top, next) = gaps_read::parted_at(s, next).ok_or(line)?;
    if pieces_read::byte_at(s, next) != b'\n' {
        return Err(line);
    }
    Ok(WcnfHead {
        variables,
        clauses,
        top,
        next: next + 1,
        line,
    })
}

// The first line that is no comment is the header's. There are no more lines than bytes and one, so that the turns are counted.
pub fn header_of(s: &[u8]) -> Result<WcnfHead, u64>
    ensures { result ≡ header_of s.now }
{
    let mut at = 0;
    let mut line = 1;
    for _turn in 0..=s.len() {
        if pieces_read::byte_at(s, at) != b'c' {
            return header_at(s, at, line);
        }
        let feed = gaps_read::feed_from(s, at);
        if feed >= s.len() {
            return Err(line);
        }
        at = feed + 1;
        line += 1;
    }
    Err(line)
}
