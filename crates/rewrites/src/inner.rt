// A rewriting that was judged fine, written.
ghost use Rattle.std.specs.Prelude.{◌≡◌, cond, ◌&&◌, eqb, set, Ok};
ghost use Rattle.rules.specs.Decide.{entered};
ghost use Rattle.rules.specs.Rewrite.{rewrite_why, rewrite_step};
ghost use Rattle.rules.specs.Steps.{concedes};
ghost use Rattle.kinds.specs.Numbers.{number};
ghost use Rattle.words.specs.Room.{EntryLeft};

use kinds::Kind;
use laying::inner::{lay, rewriting_entry};
use named::inner::reweigh;
use remnants::inner::Naming;
use rules::{Desk, Entry};
use words::inner::enter;

// The desk is written, so that it comes apart from the rows named.
pub fn rewrite_step(desk: &mut [u64], kind: Kind, named: &[u64])
    requires { rewrite_why desk.old (number kind) named.now ≡ Ok tt }
    ensures { desk.new ≡ rewrite_step desk.old (number kind) named.now }
{
    let first = desk[Desk::IN_USE];
    let rows = Naming { desk, named };
    let w = rows.lightest();
    let added = rows.added(kind);
    let conceded = desk[Desk::CONCEDED] + w * owed(kind, added);
    reweigh(desk, named, w, false);
    lay(desk, kind, named, first as usize, w);
    let entry = rewriting_entry(kind, w, named, first);
    settle(desk, first + added, conceded, entry);
}

// Rows in use and conceded as they are now, and the step's entry.
fn settle(desk: &mut [u64], in_use: u64, conceded: u64, entry: [u64; Entry::WORDS])
    requires { EntryLeft desk.old }
    ensures { desk.new ≡ entered (set (set desk.old 1 in_use) 4 conceded) entry }
{
    desk[Desk::IN_USE] = in_use;
    desk[Desk::CONCEDED] = conceded;
    enter(desk, entry);
}

// How often w is conceded: by the kind, or by a merge that adds no row.
fn owed(kind: Kind, added: u64) -> u64
    ensures { result ≡ cond (eqb (number kind) 1 && eqb added 0) 1 (concedes (number kind)) }
{
    match kind {
        Kind::Merge if added == 0 => 1,
        _ => kind.concedes(),
    }
}
