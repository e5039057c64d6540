// How far a walk has come: at its start, after a node, and as an answer.
ghost use Rattle.std.specs.Prelude.{◌≡◌, ◌+◌, ◌<◌, ◌^◌};
ghost use Rattle.rules.specs.Desk.{weight_on};
ghost use Rattle.rules.specs.Walk.{visited, kept_at, halted, at_start, status_of, best_of, found_by};

use judged::inner::JudgedDesk;
use rules::{Best, Found, Status, Walked};

// Conceded and all weights in use.
fn weight_on(desk: JudgedDesk<'_>) -> u64
    ensures { result ≡ weight_on desk.entry.words.now }
{
    let n = desk.in_use() as usize;
    let weight: u64 = (0..n).map(|i| desk.row(i).weight).sum();
    desk.conceded() + weight
}

// No reading yet, and a weight to stay below that every reading is below.
pub fn at_start(desk: JudgedDesk<'_>) -> Walked
    ensures { result ≡ at_start desk.entry.words.now }
{
    let weight = weight_on(desk);
    let best = weight + 1;
    Walked {
        nodes: 0,
        best,
        kept: false,
        reading: 0,
        stopped: false,
    }
}

// Visiting a node counts 1.
pub fn visited(s: Walked) -> Walked
    requires { s.nodes + 1 < 2 ^ 64 }
    ensures { result ≡ visited s }
{
    let nodes = s.nodes + 1;
    Walked {
        nodes,
        best: s.best,
        kept: s.kept,
        reading: s.reading,
        stopped: s.stopped,
    }
}

// A reading is kept, and its weight is the one to stay below.
pub fn kept_at(weight: u64, reading: u64, s: Walked) -> Walked
    ensures { result ≡ kept_at weight reading s }
{
    Walked {
        nodes: s.nodes,
        best: weight,
        kept: true,
        reading,
        stopped: s.stopped,
    }
}

// A node was due and could not be entered.
pub fn halted(s: Walked) -> Walked
    ensures { result ≡ halted s }
{
    Walked {
        nodes: s.nodes,
        best: s.best,
        kept: s.kept,
        reading: s.reading,
        stopped: true,
    }
}

// A search that is not stopped and has kept no reading has shown that there is none.
fn status_of(stopped: bool, kept: bool) -> Status
    ensures { result ≡ status_of stopped kept }
{
    if stopped {
        return Status::Stopped;
    }
    if kept {
        Status::Done
    } else {
        Status::Impossible
    }
}

fn best_of(kept: bool, weight: u64, reading: u64) -> Option<Best>
    ensures { result ≡ best_of kept weight reading }
{
    if kept {
        Some(Best { weight, reading })
    } else {
        None
    }
}

// What a walk has found at its end.
pub fn found_by(s: Walked) -> Found
    ensures { result ≡ found_by s }
{
    let status = status_of(s.stopped, s.kept);
    let best = best_of(s.kept, s.best, s.reading);
    Found {
        status,
        best,
        nodes: s.nodes,
    }
}
