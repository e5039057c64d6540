// Named rows: each below a limit, none twice.
ghost use Rattle.std.specs.Prelude.{◌≡◌, not, length, get_or, ltb};
ghost use Rattle.masks.specs.Sums.{every};
ghost use Rattle.rules.specs.Steps.{distinct};

// Every row named is below a limit.
pub fn all_below(named: &[u64], limit: u64) -> bool
    ensures { result ≡ every (length named.now) (λ i. ltb (get_or named.now i 0) limit) }
{
    named.iter().all(|row| *row < limit)
}

// A row is named twice: one of those before it is the same.
pub fn repeated(named: &[u64]) -> bool
    ensures { result ≡ not (distinct (length named.now) (λ i. get_or named.now i 0)) }
{
    for (j, row) in named.iter().enumerate() {
        if named[..j].contains(row) {
            return true;
        }
    }
    false
}
