// What a row adds to lost and to the sums of units: its weight, where it is unsatisfied and what is left of it is nothing, or one
// literal. Ones in the remnant tell which: none, one or more. Trailing zeros give the unit's variable.
ghost use Rattle.std.specs.Prelude.{◌≡◌, ◌+◌, ◌^◌, ◌<◌};
ghost use Rattle.literals.specs.Lits.{is_empty};
ghost use Rattle.rules.specs.Bound.{weight_where};
ghost use Rattle.desk_laws.specs.Charged.{charged_row};
ghost use Rattle.units.specs.Adds.{sum_words, place_of, weight_under, place_adds, row_adds, Roomy, Grown};

use literals::{Literal, Lits};
use rules::{Part, Row};
use values::{charge_on, with_weight};

// Where the sums of negative literals begin, behind those of the positive ones.
pub const NEGATIVE: usize = Literal::MOST as usize;

// A sum for each literal.
pub const SUMS: usize = 2 * NEGATIVE;

// Where the sum of a literal stands.
fn place(one: Lits) -> usize
    ensures { result ≡ place_of one }
{
    let v = masks::lowest(one.positive | one.negative) as usize;
    if one.negative == 0 { v } else { NEGATIVE + v }
}

// The weight that a row still has, of which these negative literals are left. It has all of it where its negative literals are just those on its
// variables that are true, and those left: a positive literal that is true, a negative one that is, and a variable both ways each make the two
// masks differ.
fn weight_under(p: Part, row: Row, negative: u64) -> u64
    ensures { result ≡ weight_under p row negative }
{
    let l = row.lits;
    let untrue = ((l.positive ^ l.negative) & p.truths) | negative;
    if untrue == l.negative { row.weight } else { 0 }
}

// The sum at the place of the one literal that is left grows by the weight.
fn add_unit(rest: Lits, w: u64, sums: &mut [u64])
    requires rest_bound { place_of rest < sum_words }
    requires roomy { Roomy w sums.old }
    ensures { Grown (place_adds (place_of rest) w) sums.old sums.new }
{
    let k = place(rest);
    let sum = sums[k] + w;
    sums[k] = sum;
}

// What a row adds to the sums, and as the result what is then lost. How much is left of it changes with the depth of a walk alone, and
// is asked first; whether it is satisfied changes from node to node, and only chooses between its weight and 0. Whether there are ones at
// all is seen without counting them. What is left is asked of the variables that the row has one way, which are all of them in a table's row;
// where another has a variable both ways, it is satisfied or neither lost nor a unit, and has no weight. A charge joins what is lost where the row
// is hard, and no sum.
pub fn add_row(p: Part, row: Row, charge: u64, lost: u64, sums: &mut [u64]) -> u64
    requires row_bound { lost + (charged_row charge row).weight < 2 ^ 64 }
    requires roomy { Roomy row.weight sums.old }
    ensures value { result ≡ lost + weight_where is_empty p (charged_row charge row) }
    ensures grown { Grown (row_adds p row) sums.old sums.new }
{
    let l = row.lits;
    let some = masks::without(l.positive ^ l.negative, p.decided);
    let left = masks::count(some);
    if some == 0 {
        let charged = with_weight(row, row.weight + charge_on(row, charge));
        return lost + weight_under(p, charged, 0);
    }
    if left > 1 {
        return lost;
    }
    let negative = some & l.negative;
    let rest = Lits {
        positive: some ^ negative,
        negative,
    };
    add_unit(rest, weight_under(p, row, negative), sums);
    lost
}
