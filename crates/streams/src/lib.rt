// What every program does with its input and its output: one byte more than is read is kept, and what is left is read to its end. A read that
// fails counts as the end of the input.
#![tactic(auto)]

ghost use Rattle.std.specs.Prelude.{◌+◌, ◌≤◌, ◌≡◌, length, take};
ghost use Rattle.std.specs.Io.KnownBytes.{Consumes};
ghost use Rattle.rules.specs.Program.{most_input};

use rules::TextRead;
use std::io::Read;

// One byte more than is read shows that an input is too long.
const KEPT: usize = TextRead::MOST_INPUT + 1;

pub fn kept() -> [u8; KEPT]
    ensures { length result ≡ most_input + 1 }
{
    [0; KEPT]
}

// How many bytes were read, none where a read fails.
fn read_some<R: Read>(input: &mut R, buffer: &mut [u8]) -> usize
    ensures within { result ≤ length buffer.new }
    ensures bytes { Consumes (R.remaining input.old) (R.remaining input.new) (take result buffer.new) }
{
    match input.read(buffer) {
        Ok(n) => n,
        Err(_) => 0,
    }
}

// Reads until the buffer is full or the input ends. The bytes that were read stand at the buffer's front; their number is returned.
pub fn read_full<R: Read>(input: &mut R, buffer: &mut [u8]) -> usize
    ensures within { result ≤ length buffer.new }
    ensures bytes { Consumes (R.remaining input.old) (R.remaining input.new) (take result buffer.new) }
{
    let mut done = 0;
    // A turn moves on by as many bytes as it read, so that no range has its places.
    while done < buffer.len() {
        let n = read_some(input, &mut buffer[done..]);
        if n == 0 {
            break;
        }
        done += n;
    }
    done
}

// Whether there was more to drop.
fn drop_some<R: Read>(input: &mut R) -> bool {
    let mut dropped = [0u8; 65_536];
    read_some(input, &mut dropped) > 0
}

// Whoever writes into a pipe expects it to be read to its end, also past the n bytes that were kept. A loop has to end and an input need
// not, so that the turns are counted, up to a number that no input uses up.
pub fn drop_rest<R: Read>(input: &mut R, n: usize) {
    if n < KEPT {
        return;
    }
    for _ in 0..u64::MAX {
        if !drop_some(input) {
            return;
        }
    }
}
