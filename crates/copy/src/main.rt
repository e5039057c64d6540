// A text on standard input, read into a table and written out from it on standard output; nothing where either is refused. This runs
// reader and writer on texts that are too long for the solver.
#![tactic(auto)]

ghost use Rattle.std.specs.Prelude.{◌≡◌, length};
ghost use Rattle.copy.specs.Copied.{copy_length, copy_out};

use rules::Row;
use std::io;

// One byte more than the longest text of an admissible table.
const ROOM: usize = 560_024;

const TABLE: usize = Row::WORDS * Row::MOST;

fn room<const N: usize>() -> [u8; N]
    ensures { length result ≡ N }
{
    [0; N]
}

fn again(input: &[u8], output: &mut [u8]) -> usize
    ensures length { result ≡ copy_length input.now output.old }
    ensures bytes { output.new ≡ copy_out input.now output.old }
{
    let mut table = [0u64; TABLE];
    let Ok(said) = reader::read(input, &mut table) else {
        return 0;
    };
    let n = Row::WORDS * (said.rows as usize);
    writer::write(said.variables, said.budget as u32, &table[..n], output).unwrap_or(0)
}

fn main(rt: HostRuntime) -> io::Result<()> {
    let mut input: [u8; ROOM] = room();
    let n = streams::read_full(&mut rt.stdin(), &mut input);
    let mut output: [u8; ROOM] = room();
    let m = again(&input[..n], &mut output);
    rt.write_all(&output[..m])
}
