// Each line where the one before it ends. A variable that is counted has a bit in a reading.
ghost use Rattle.std.specs.Prelude.{◌+◌, ◌≤◌, ◌^◌};
ghost use Rattle.std.specs.Result.{ForOk};
ghost use Rattle.literals.specs.Literal.{most_variables};
ghost use Rattle.rules.specs.WcnfProgram.{statement_text, wcnf_refusal_text, best_weight_text, values_text, wcnf_found_text, wcnf_outcome_text};
ghost use Rattle.pieces_written.specs.Stored.{Stored};
ghost use Rattle.wcnf_lines.specs.Lengths.{most_weight_line, most_statement_line, most_values_line};

use pieces_written::inner;
use readings::inner::literals_of;
use rules::{Best, Found, Outcome, Refusal, Status};
use spaced_written::inner::put_spaced_lits;
use values::numbered;

fn put_refusal(out: &mut [u8], why: Refusal) -> usize
    ensures { Stored out.old 0 (wcnf_refusal_text why) result out.new }
{
    let told = numbered(why);
    let number = inner::put_key(out, 0, b"c refused: number ");
    let gap = inner::put_number(out, number, told.0);
    let second = inner::put_number_line(out, gap, b", place ", told.1);
    inner::put_key(out, second, b"s UNKNOWN\n")
}

fn put_weight(out: &mut [u8], at: usize, best: Option<Best>) -> usize
    requires { at + most_weight_line ≤ 2 ^ 32 }
    ensures { Stored out.old at (best_weight_text best) result out.new }
{
    match best {
        None => at,
        Some(Best { weight, reading: _ }) => inner::put_number_line(out, at, b"o ", weight),
    }
}

fn put_statement(out: &mut [u8], at: usize, status: Status) -> usize
    requires { at + most_statement_line ≤ 2 ^ 32 }
    ensures { Stored out.old at (statement_text status) result out.new }
{
    match status {
        Status::Done => inner::put_key(out, at, b"s OPTIMUM FOUND\n"),
        Status::Stopped => inner::put_key(out, at, b"s UNKNOWN\n"),
        Status::Impossible => inner::put_key(out, at, b"s UNSATISFIABLE\n"),
    }
}

// A literal for each variable.
fn put_values(out: &mut [u8], at: usize, variables: u64, best: Option<Best>) -> usize
    requires { (at + most_values_line ≤ 2 ^ 32) × (variables ≤ most_variables) }
    ensures { Stored out.old at (values_text variables best) result out.new }
{
    match best {
        None => at,
        Some(Best { weight: _, reading }) => {
            let lits = literals_of(variables, reading);
            let from = inner::put(out, at, b'v');
            let end = put_spaced_lits(out, from, variables, lits);
            inner::put(out, end, b'\n')
        }
    }
}

fn put_found(out: &mut [u8], variables: u64, found: Found) -> usize
    requires { variables ≤ most_variables }
    ensures { Stored out.old 0 (wcnf_found_text variables found) result out.new }
{
    let status = found.status;
    let best = found.best;
    let nodes = found.nodes;
    let second = inner::put_number_line(out, 0, b"c nodes ", nodes);
    let third = put_weight(out, second, best);
    let fourth = put_statement(out, third, status);
    put_values(out, fourth, variables, best)
}

// What an input came to.
pub fn put_outcome(out: &mut [u8], outcome: Result<Outcome, Refusal>) -> usize
    requires { ForOk outcome (λ o. o.variables ≤ most_variables) }
    ensures { Stored out.old 0 (wcnf_outcome_text outcome) result out.new }
{
    match outcome {
        Err(why) => put_refusal(out, why),
        Ok(o) => put_found(out, o.variables, o.found),
    }
}
