// A literal as a kind of value, and a set of literals as two masks. No method asks anything of its value: a number that
// is no literal can be held, and each definition says what becomes of it.
#![tactic(auto)]

ghost use Rattle.std.specs.Prelude.{◌≡◌};
ghost use Rattle.literals.specs.Literal.{size, is_positive, is_literal, opposite, bit_of, lits_of, offered};
ghost use Rattle.literals.specs.Lits.{no_lits, negated_lits, together, less, variables_of, is_empty, same_lits, is_one};

#[derive(Clone, Copy, Debug, PartialEq, Eq)]
pub struct Literal {
    pub value: i64,
}

// A set of literals. Bit v - 1 of a mask stands for variable v.
#[derive(Clone, Copy, Debug, PartialEq, Eq)]
pub struct Lits {
    pub positive: u64,
    pub negative: u64,
}

impl Literal {
    // How many variables there can be, and so the largest size of a literal.
    pub const MOST: u64 = 64;

    // Any number may be offered; what is no literal makes none.
    pub fn new(value: i64) -> Option<Literal>
        ensures { result ≡ offered value }
    {
        let l = Literal { value };
        if l.is_literal() { Some(l) } else { None }
    }

    fn is_literal(self) -> bool
        ensures { result ≡ is_literal self.value }
    {
        let n = self.size();
        (1 <= n) & (n <= Literal::MOST)
    }

    // The variable. The least number of the type, which has no opposite there, has a size too.
    pub fn size(self) -> u64
        ensures { result ≡ size self.value }
    {
        self.value.unsigned_abs()
    }

    pub fn is_positive(self) -> bool
        ensures { result ≡ is_positive self.value }
    {
        let v = self.value;
        0 < v
    }

    // The opposite literal. What is no literal stays: the least number of the type has no negation there.
    pub fn negated(self) -> Literal
        ensures { result.value ≡ opposite self.value }
    {
        if self.is_literal() {
            let v = self.value;
            let n = -v;
            Literal { value: n }
        } else {
            self
        }
    }

    // The variable's bit.
    pub fn mask(self) -> u64
        ensures { result ≡ bit_of self.value }
    {
        let n = self.size();
        if n == 0 {
            0
        } else {
            let bit = n - 1;
            masks::single(bit)
        }
    }

    // The set that holds this literal alone.
    pub fn lits(self) -> Lits
        ensures { result ≡ lits_of self.value }
    {
        let m = self.mask();
        if self.is_positive() {
            Lits {
                positive: m,
                negative: 0,
            }
        } else {
            Lits {
                positive: 0,
                negative: m,
            }
        }
    }
}

impl Lits {
    pub fn none() -> Lits
        ensures { result ≡ no_lits }
    {
        let nothing = 0;
        Lits {
            positive: nothing,
            negative: nothing,
        }
    }

    // Each literal's opposite.
    pub fn negated(self) -> Lits
        ensures { result ≡ negated_lits self }
    {
        Lits {
            positive: self.negative,
            negative: self.positive,
        }
    }

    pub fn together(self, other: Lits) -> Lits
        ensures { result ≡ together self other }
    {
        Lits {
            positive: self.positive | other.positive,
            negative: self.negative | other.negative,
        }
    }

    pub fn less(self, other: Lits) -> Lits
        ensures { result ≡ less self other }
    {
        let positive = masks::without(self.positive, other.positive);
        let negative = masks::without(self.negative, other.negative);
        Lits { positive, negative }
    }

    // The variables that its literals stand on.
    pub fn variables(self) -> u64
        ensures { result ≡ variables_of self }
    {
        self.positive | self.negative
    }

    pub fn is_empty(self) -> bool
        ensures { result ≡ is_empty self }
    {
        (self.positive == 0) & (self.negative == 0)
    }

    pub fn is_same(self, other: Lits) -> bool
        ensures { result ≡ same_lits self other }
    {
        self == other
    }

    // Whether it holds just one literal.
    pub fn is_one(self) -> bool
        ensures { result ≡ is_one self }
    {
        let positive = masks::count(self.positive);
        let negative = masks::count(self.negative);
        positive + negative == 1
    }
}
