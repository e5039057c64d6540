// The named rows lose a weight or regain it, where the caller has seen that it fits.
ghost use Rattle.std.specs.Prelude.{◌≡◌, cond, ◌+◌, ◌^◌, ◌<◌, ◌≤◌};
ghost use Rattle.named.specs.Reweigh.{Reweighable, new_weight, named_reweighed};

use words::inner::{row_on, set_weight};

// Each named row regains w, or loses it.
pub fn reweigh(desk: &mut [u64], named: &[u64], w: u64, regain: bool)
    requires { Reweighable desk.old named.now w regain }
    ensures { desk.new ≡ named_reweighed desk.old named.now w regain }
{
    for row in named {
        let row = *row as usize;
        let weight = row_on(desk, row).weight;
        set_weight(desk, row, changed(weight, w, regain));
    }
}

fn changed(weight: u64, w: u64, regain: bool) -> u64
    requires weight_bound { cond regain (weight + w) weight < 2 ^ 64 }
    requires w_bound { cond regain 0 w ≤ weight }
    ensures { result ≡ new_weight w regain weight }
{
    if regain { weight + w } else { weight - w }
}
