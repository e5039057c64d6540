// For software in C: the weight of a reading, load, and whether a desk is well formed. Each call is the one of its own room, with the same
// refusals. What is lent, what comes back and how a refusal is told stands in `olikumpasho.h`, function by function.
#![tactic(auto)]

ghost use Rattle.std.specs.Prelude.{◌≡◌};
ghost use Rattle.rules.specs.Table.{weighed};
ghost use Rattle.rules.specs.Desk.{load_why, load_desk, well_formed};
ghost use Rattle.telling.specs.Told.{told, by_weighed, weight_out};

use rules::Weight;
use telling::inner::tell;
use telling::weighed_words;

#[unsafe(no_mangle)]
pub extern "C" fn olikumpasho_weight_of(
    variables: u64,
    table: &[u64],
    reading: u64,
    found: &mut [u64; 2],
) -> u64
    ensures answer { result ≡ told (by_weighed (weighed variables table.now reading)) }
    ensures lent { found.new ≡ weight_out (weighed variables table.now reading) found.old }
{
    match tables::weight_of(variables, table, reading) {
        Err(r) => tell(Err(r)),
        Ok(Weight { weight, hold }) => {
            *found = weighed_words(weight, hold);
            0
        }
    }
}

#[unsafe(no_mangle)]
pub extern "C" fn olikumpasho_load(
    variables: u64,
    table: &[u64],
    capacity: u64,
    desk: &mut [u64],
) -> u64
    ensures answer { result ≡ told (load_why variables table.now capacity desk.old) }
    ensures lent { desk.new ≡ load_desk variables table.now capacity desk.old }
{
    let loaded = desk::load(variables, table, capacity, desk);
    tell(loaded)
}

#[unsafe(no_mangle)]
pub extern "C" fn olikumpasho_well_formed(desk: &[u64]) -> bool
    ensures answer { result ≡ well_formed desk.now }
{
    formed::well_formed(desk)
}
