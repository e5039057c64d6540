// What literals are under a partial reading.
ghost use Rattle.std.specs.Prelude.{◌≡◌};
ghost use Rattle.rules.specs.Desk.{satisfied, remnant};

use literals::Lits;
use rules::Part;

// A literal is decided true.
pub fn satisfied(p: Part, l: Lits) -> bool
    ensures { result ≡ satisfied p l }
{
    (l.positive & p.truths != 0) | (l.negative & masks::without(p.decided, p.truths) != 0)
}

// The literals on undecided variables.
pub fn remnant(p: Part, l: Lits) -> Lits
    ensures { result ≡ remnant p l }
{
    let positive = masks::without(l.positive, p.decided);
    let negative = masks::without(l.negative, p.decided);
    Lits { positive, negative }
}
