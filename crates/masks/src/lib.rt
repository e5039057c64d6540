// Masks of 64 bits: the single bits that the language has no name for.
#![tactic(auto)]

ghost use Rattle.std.specs.Prelude.{◌≡◌};
ghost use Rattle.std.specs.Int.Count.{count_trailing_zeros};
ghost use Rattle.masks.specs.Masks.{without, single, has, below, count};

// What is in a and not in b.
pub fn without(a: u64, b: u64) -> u64
    ensures { result ≡ without a b }
{
    a ^ (a & b)
}

// v alone, where masks reach that far; else nothing.
pub fn single(v: u64) -> u64
    ensures { result ≡ single v }
{
    if v < 64 { 1u64 << v } else { 0 }
}

// Whether v is in m.
pub fn has(m: u64, v: u64) -> bool
    ensures { result ≡ has m v }
{
    if v < 64 { (m >> v) % 2 == 1 } else { false }
}

// Whether all that is in m is below n.
pub fn below(m: u64, n: u64) -> bool
    ensures { result ≡ below m n }
{
    if n < 64 { m >> n == 0 } else { true }
}

// How many are in m.
pub fn count(m: u64) -> u64
    ensures { result ≡ count m }
{
    u64::count_ones(m) as u64
}

// The lowest in m, and 64 where there is none.
pub fn lowest(m: u64) -> u64
    ensures { result ≡ count_trailing_zeros 64 m }
{
    u64::trailing_zeros(m) as u64
}
