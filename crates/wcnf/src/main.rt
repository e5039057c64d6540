// The answer to a competition file on standard input, on standard output. It is written as soon as it is certain; then what is left of the
// input is read to its end. No contract can say what is read or written, so all that can be stated is stated of `reply`.
#![tactic(auto)]

ghost use Rattle.std.specs.Prelude.{◌≤◌, length};
ghost use Rattle.rules.specs.WcnfProgram.{wcnf_answer};
ghost use Rattle.wcnf_lines.specs.Lengths.{most_answer};
ghost use Rattle.streams.specs.Replies.{Replies};

use std::io;

// No answer is longer.
const ROOM: usize = 818;

// The answer, at the front of bytes that have room for every answer.
fn reply(input: &[u8], output: &mut [u8]) -> usize
    requires { most_answer ≤ length output.old }
    ensures { Replies (wcnf_answer input.now) result output.new }
{
    wcnf_answer::answer_wcnf(input, output).unwrap()
}

fn main(rt: HostRuntime) -> io::Result<()> {
    let mut stdin = rt.stdin();
    let mut input = streams::kept();
    let n = streams::read_full(&mut stdin, &mut input);
    let mut output = [0u8; ROOM];
    let m = reply(&input[..n], &mut output);
    let written = rt.write_all(&output[..m]);
    streams::drop_rest(&mut stdin, n);
    written
}
