// The group of a conflict, on a desk and with a trail that the caller has judged: desk, trail and working weights are only read until the cost is taken.
ghost use Rattle.std.specs.Prelude.{◌≡◌, ◌+◌, ◌-◌, ◌≤◌, length};
ghost use Rattle.rules.specs.Groups.{joined, group_of};
ghost use Rattle.group_laws.specs.Trails.{weights_in};
ghost use Rattle.looking.specs.Looks.{lits_on, hunt_of, Lent};
ghost use Rattle.hunts.specs.Hunts.{Lying};
ghost use Rattle.gathering.specs.Gathered.{group_in, group_words, Due, Traced, Standing, Taken};

use crate::Joined;
use literals::Literal;
use looking::Trail;
use rules::Part;
use values::remnant;
use words::inner::row_on;

// Room for the rows of a group: one for each entry, and the conflict row.
pub const ROWS: usize = Literal::MOST as usize + 1;

// An entry whose variable is needed joins with its row, and the variables of that row's remnant at the node are needed too.
fn join(
    desk: &[u64],
    p: Part,
    weights: &[u64],
    variable: u64,
    row: u64,
    g: Joined,
    group: &mut [u64],
) -> Joined
    requires { Due desk.now weights.now row g group.old }
    ensures group_after { group_in result group.new ≡ joined (lits_on desk.now) (weights_in weights.now) p
        (record { variable = variable; row = row }) (group_in g group.old) }
    ensures size_bound { result.size ≤ g.size + 1 }
{
    if variable & g.needed == 0 {
        return g;
    }
    let i = row as usize;
    let there = row_on(desk, i);
    let rest = remnant(p, there.lits);
    let needed = g.needed | (rest.positive | rest.negative);
    let cost = weights[i].min(g.cost);
    let n = g.size;
    group[n] = row;
    let size = n + 1;
    Joined { needed, cost, size }
}

// The group of a conflict: its row, then the trail from the newest entry to the oldest.
pub fn gather(
    desk: &[u64],
    p: Part,
    weights: &[u64],
    t: Trail,
    masks: &[u64],
    rows: &[u64],
    group: &mut [u64],
) -> Joined
    requires lying { Lying desk.now weights.now }
    requires lent { Lent masks.now rows.now × (length group.old ≡ group_words) }
    requires traced { Traced desk.now t rows.now }
    ensures group_after { group_in result group.new ≡ group_of (lits_on desk.now) (weights_in weights.now) p
        (hunt_of t masks.now rows.now) }
    ensures size_le_group_words { result.size ≤ group_words }
{
    let c = t.conflict;
    let there = row_on(desk, c);
    let rest = remnant(p, there.lits);
    let needed = rest.positive | rest.negative;
    let cost = weights[c];
    group[0] = c as u64;
    let mut g = Joined {
        needed,
        cost,
        size: 1,
    };
    for k in (0..t.entries).rev() {
        let variable = masks[k];
        let row = rows[k];
        g = join(desk, p, weights, variable, row, g, group);
    }
    g
}

// The cost is taken from the working weight of each row of the group.
pub fn take(group: &[u64], size: usize, cost: u64, weights: &mut [u64])
    requires { Standing size group.now weights.old }
    ensures { Taken cost size group.now weights.old weights.new }
{
    for row in &group[..size] {
        let i = *row as usize;
        weights[i] = weights[i].saturating_sub(cost);
    }
}
