// A taking back that was judged fine, done: a decision cleared, or a rewriting's rows freed and its named rows' weights regained.
ghost use Rattle.std.specs.Prelude.{◌≡◌, ◌<◌, set, Ok};
ghost use Rattle.rules.specs.TakeBack.{take_back_why, take_back_step, undo_decision, undo_rewriting, withdrawn, last_kind};
ghost use Rattle.words.specs.Room.{StepStands};

use last_entry::inner::conceded_by;
use named::inner::reweigh;
use rules::{Desk, Entry};
use words::inner::{last_rows, last_word, withdraw, zero_rows};

// Undoes the last standing step.
pub fn take_back_step(desk: &mut [u64])
    requires { take_back_why desk.old ≡ Ok tt }
    ensures { desk.new ≡ take_back_step desk.old }
{
    if last_word(desk, Desk::VARIABLES) == 0 {
        undo_decision(desk);
        return;
    }
    undo_rewriting(desk);
}

// The decision is cleared.
fn undo_decision(desk: &mut [u64])
    requires desk_value { take_back_why desk.old ≡ Ok tt }
    requires desk_value_2 { last_kind desk.old ≡ 0 }
    ensures { desk.new ≡ undo_decision desk.old }
{
    let v = masks::single(last_word(desk, Desk::IN_USE) - 1);
    let decided = masks::without(desk[Desk::DECIDED], v);
    let truths = masks::without(desk[Desk::TRUTHS], v);
    desk[Desk::DECIDED] = decided;
    desk[Desk::TRUTHS] = truths;
    withdraw(desk);
}

// The named rows regain w, the new rows are zeroed, conceded loses what the step added.
fn undo_rewriting(desk: &mut [u64])
    requires desk_value { take_back_why desk.old ≡ Ok tt }
    requires desk_nonzero { 0 < last_kind desk.old }
    ensures { desk.new ≡ undo_rewriting desk.old }
{
    let in_use = desk[Desk::IN_USE];
    let w = last_word(desk, Desk::IN_USE);
    let n = last_word(desk, Desk::CAPACITY) as usize;
    let first = last_word(desk, Entry::FIRST);
    let conceded = desk[Desk::CONCEDED] - conceded_by(desk);
    let rows = last_rows(desk);
    reweigh(desk, &rows[..n], w, true);
    zero_rows(desk, first as usize, (in_use - first) as usize);
    release(desk, first, conceded);
}

// Rows in use and conceded as they were, and the step's entry withdrawn.
fn release(desk: &mut [u64], in_use: u64, conceded: u64)
    requires { StepStands desk.old }
    ensures { desk.new ≡ withdrawn (set (set desk.old 1 in_use) 4 conceded) }
{
    desk[Desk::IN_USE] = in_use;
    desk[Desk::CONCEDED] = conceded;
    withdraw(desk);
}
