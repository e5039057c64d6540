// Working weights of a desk that was judged, stored in lent words. Words behind the rows in use stay as they are.
ghost use Rattle.std.specs.Prelude.{◌≡◌, ◌+◌, ◌^◌, ◌≤◌, ◌<◌, length};
ghost use Rattle.rules.specs.Desk.{in_use};
ghost use Rattle.desk_laws.specs.Charged.{dead_charge, charged_row, lost_charged};
ghost use Rattle.working_weights.specs.Works.{unsatisfied_weight, shares_of, Works};

use crate::Shares;
use judged::inner::JudgedDesk;
use rules::{Part, Row};
use values::{charge_on, remnant, satisfied, with_weight};

// A row's weight, where the row is unsatisfied.
fn unsatisfied_weight(p: Part, row: Row) -> u64
    ensures { result ≡ unsatisfied_weight p row }
{
    if satisfied(p, row.lits) {
        0
    } else {
        row.weight
    }
}

// What it goes to, by whether anything is left of the row. Where nothing is, a charge joins it if the row is hard.
fn shares(p: Part, charge: u64, row: Row) -> Shares
    requires { (charged_row charge row).weight < 2 ^ 64 }
    ensures { result ≡ shares_of p charge row }
{
    let rest = remnant(p, row.lits);
    if rest.positive | rest.negative == 0 {
        let charged = with_weight(row, row.weight + charge_on(row, charge));
        let lost = unsatisfied_weight(p, charged);
        return Shares { lost, working: 0 };
    }
    let working = unsatisfied_weight(p, row);
    Shares { lost: 0, working }
}

// One pass over the rows in use: each working weight is stored, and the result is what is lost, with a charge for each hard row that is.
pub fn weigh(desk: JudgedDesk<'_>, p: Part, charge: u64, weights: &mut [u64]) -> u64
    requires fair { charge ≤ dead_charge }
    requires desk_in_bounds { in_use desk.words.now ≤ length weights.old }
    ensures value { result ≡ lost_charged charge desk.entry.words.now p (in_use desk.entry.words.now) }
    ensures works { Works desk.entry.words.now p (in_use desk.entry.words.now) weights.old weights.new }
{
    let n = desk.in_use() as usize;
    let mut lost = 0;
    for i in 0..n {
        let row = desk.row(i);
        let s = shares(p, charge, row);
        weights[i] = s.working;
        lost += s.lost;
    }
    lost
}
