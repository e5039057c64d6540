// For software in C: the bound and the search, as `olikumpasho.h` has them. The desk is only read.
#![tactic(auto)]

ghost use Rattle.std.specs.Prelude.{◌≡◌};
ghost use Rattle.rules.specs.Choice.{choice_of, bounded};
ghost use Rattle.rules.specs.Walk.{searched};
ghost use Rattle.telling.specs.Told.{told, by_bounded, bound_out, by_searched, found_out};

use rules::Choice;
use telling::found_words;
use telling::inner::tell;

// Any number but 0 is the bound by groups.
fn choice_of(n: u64) -> Choice
    ensures { result ≡ choice_of n }
{
    if n == 0 {
        Choice::Units
    } else {
        Choice::Groups
    }
}

#[unsafe(no_mangle)]
pub extern "C" fn olikumpasho_bound(desk: &[u64], choice: u64, losses: &mut [u64; 3]) -> u64
    ensures answer { result ≡ told (by_bounded (bounded desk.now (choice_of choice))) }
    ensures lent { losses.new ≡ bound_out (bounded desk.now (choice_of choice)) losses.old }
{
    match bound::bound(desk, choice_of(choice)) {
        Err(r) => tell(Err(r)),
        Ok(b) => {
            *losses = [b.conceded, b.lost, b.foreseen];
            0
        }
    }
}

#[unsafe(no_mangle)]
pub extern "C" fn olikumpasho_search(
    desk: &[u64],
    choice: u64,
    budget: u32,
    found: &mut [u64; 5],
) -> u64
    ensures answer { result ≡ told (by_searched (searched desk.now (choice_of choice) budget)) }
    ensures lent { found.new ≡ found_out (searched desk.now (choice_of choice) budget) found.old }
{
    match walk::search(desk, choice_of(choice), budget) {
        Err(why) => tell(Err(why)),
        Ok(f) => {
            *found = found_words(f);
            0
        }
    }
}
