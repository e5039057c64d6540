// Each line where the one before it ends. A variable that is counted has a bit in a reading.
ghost use Rattle.std.specs.Prelude.{◌+◌, ◌≤◌, ◌^◌};
ghost use Rattle.std.specs.Result.{ForOk};
ghost use Rattle.literals.specs.Literal.{most_variables};
ghost use Rattle.rules.specs.Text.{line};
ghost use Rattle.rules.specs.Program.{refusal_text, status_text, weight_text, losses_text, found_text, outcome_text};
ghost use Rattle.pieces_written.specs.Stored.{Stored};
ghost use Rattle.answer_lines.specs.Lengths.{most_weight_line, most_losses_lines};

use pieces_written::inner;
use readings::inner::put_reading;
use rules::{Best, Found, Losses, Outcome, Refusal, Status};
use values::numbered;

fn put_refusal(out: &mut [u8], why: Refusal) -> usize
    ensures { Stored out.old 0 (refusal_text why) result out.new }
{
    let told = numbered(why);
    let second = inner::put_key(out, 0, b"status=refused\n");
    let third = inner::put_number_line(out, second, b"number=", told.0);
    inner::put_number_line(out, third, b"place=", told.1)
}

fn put_status(out: &mut [u8], status: Status) -> usize
    ensures { Stored out.old 0 (line "status=" (status_text status)) result out.new }
{
    match status {
        Status::Done => inner::put_key(out, 0, b"status=done\n"),
        Status::Stopped => inner::put_key(out, 0, b"status=stopped\n"),
        Status::Impossible => inner::put_key(out, 0, b"status=impossible\n"),
    }
}

fn put_weight(out: &mut [u8], at: usize, best: Option<Best>) -> usize
    requires { at + most_weight_line ≤ 2 ^ 32 }
    ensures { Stored out.old at (line "weight=" (weight_text best)) result out.new }
{
    match best {
        None => inner::put_key(out, at, b"weight=none\n"),
        Some(Best { weight, reading: _ }) => inner::put_number_line(out, at, b"weight=", weight),
    }
}

// Where the bound comes from.
fn put_losses(out: &mut [u8], at: usize, losses: Losses) -> usize
    requires { at + most_losses_lines ≤ 2 ^ 32 }
    ensures { Stored out.old at (losses_text losses) result out.new }
{
    let conceded = losses.conceded;
    let lost = losses.lost;
    let foreseen = losses.foreseen;
    let second = inner::put_number_line(out, at, b"conceded=", conceded);
    let third = inner::put_number_line(out, second, b"lost=", lost);
    inner::put_number_line(out, third, b"foreseen=", foreseen)
}

fn put_found(out: &mut [u8], variables: u64, root: Losses, found: Found) -> usize
    requires { variables ≤ most_variables }
    ensures { Stored out.old 0 (found_text variables root found) result out.new }
{
    let status = found.status;
    let best = found.best;
    let nodes = found.nodes;
    let second = put_status(out, status);
    let third = put_weight(out, second, best);
    let fourth = inner::put_number_line(out, third, b"nodes=", nodes);
    let fifth = put_reading(out, fourth, variables, best);
    put_losses(out, fifth, root)
}

// What an input came to.
pub fn put_outcome(out: &mut [u8], outcome: Result<Outcome, Refusal>) -> usize
    requires { ForOk outcome (λ o. o.variables ≤ most_variables) }
    ensures { Stored out.old 0 (outcome_text outcome) result out.new }
{
    match outcome {
        Err(why) => put_refusal(out, why),
        Ok(o) => put_found(out, o.variables, o.root, o.found),
    }
}
