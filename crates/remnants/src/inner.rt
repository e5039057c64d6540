// Rows named on a desk: their remnants, what these show and give, how many rows a rewriting adds, the smallest weight.
ghost use Rattle.std.specs.Prelude.{◌≡◌, ◌+◌, ◌≤◌, ◌<◌, length};
ghost use Rattle.rules.specs.Rewrite.{shows, clash, apart_from};
ghost use Rattle.remnants.specs.Rows.{OnDesk, merges_two};

use crate::{Ends, Link};
use kinds::Kind;
use literals::Lits;
use rules::{Desk, Part};
use values::remnant;
use words::inner::row_on;

// The rows that a rewriting names, and the desk on which they are.
#[derive(Clone, Copy)]
pub struct Naming<'a> {
    pub desk: &'a [u64],
    pub named: &'a [u64],
    pub ghost on_desk: { OnDesk desk.now named.now },
}

impl Naming<'_> {
    ghost use Rattle.kinds.specs.Numbers.{number};
    ghost use Rattle.rules.specs.Rewrite.{lightest};
    ghost use Rattle.rules.specs.Steps.{remnant_of};
    ghost use Rattle.remnants.specs.Rows.{WellNamed, added_rows, link_of, rest_of, fork_end};

    // The remnant of the i-th named row.
    pub fn remnant(&self, i: usize) -> Lits
        requires { i < length self.now.named.now }
        ensures { result ≡ remnant_of self.now.desk.now self.now.named.now i }
    {
        let p = Part {
            decided: self.desk[Desk::DECIDED],
            truths: self.desk[Desk::TRUTHS],
        };
        let row = row_on(self.desk, self.named[i] as usize);
        remnant(p, row.lits)
    }

    // Follows a chain over its first k rows behind l1.
    pub fn follow(&self, k: usize) -> Link
        requires { k < length self.now.named.now }
        ensures { result ≡ link_of (remnant_of self.now.desk.now self.now.named.now) k }
    {
        let mut lit = self.remnant(0);
        let mut fits = lit.is_one();
        for i in 0..k {
            let r = self.remnant(i + 1);
            let next = r.less(lit.negated());
            fits = fits & shows(r, lit.negated(), next);
            lit = next;
        }
        Link { fits, lit }
    }

    // (a, not b, not c) and (not a, b, c).
    pub fn fork_end(&self, k: usize) -> Ends
        requires { k + 4 ≤ length self.now.named.now }
        ensures { result ≡ fork_end k (remnant_of self.now.desk.now self.now.named.now) }
    {
        let a = self.follow(k).lit;
        let no = a.negated();
        let b = self.remnant(k + 1).less(no);
        let c = self.remnant(k + 2).less(no);
        let bc = b.together(c);
        let one = a.together(bc.negated());
        let other = no.together(bc);
        Ends { one, other }
    }

    // What a merge leaves of its two rows.
    pub fn rest(&self) -> Lits
        requires { 2 ≤ length self.now.named.now }
        ensures { result ≡ rest_of (remnant_of self.now.desk.now self.now.named.now) }
    {
        let l = self.remnant(0);
        apart_from(clash(l, self.remnant(1)), l)
    }

    // Rows that a rewriting which fits adds. A merge with an empty rest adds none.
    pub fn added(&self, kind: Kind) -> u64
        requires { WellNamed (number kind) (length self.now.named.now) }
        ensures { result ≡ added_rows self.now.desk.now (number kind) self.now.named.now }
    {
        match kind {
            Kind::Merge if self.rest().is_empty() => 0,
            _ => self.named.len() as u64 - kind.fewer_added(),
        }
    }

    // The smallest weight among the named rows.
    pub fn lightest(&self) -> u64
        requires { 1 ≤ length self.now.named.now }
        ensures { result ≡ lightest self.now.desk.now self.now.named.now }
    {
        let mut least = row_on(self.desk, self.named[0] as usize).weight;
        for row in &self.named[1..] {
            least = least.min(row_on(self.desk, *row as usize).weight);
        }
        least
    }
}

// A remnant holds just two literals, each on a variable of its own.
pub fn shows(r: Lits, l: Lits, m: Lits) -> bool
    ensures { result ≡ shows r l m }
{
    l.is_one() & (m.is_one() & ((l.variables() & m.variables() == 0) & r.is_same(l.together(m))))
}

// The variables on which two remnants are of opposite signs.
fn clash(l: Lits, m: Lits) -> u64
    ensures { result ≡ clash l m }
{
    (l.positive & m.negative) | (l.negative & m.positive)
}

// A remnant without the literals on some variables.
fn apart_from(mask: u64, l: Lits) -> Lits
    ensures { result ≡ apart_from mask l }
{
    let positive = masks::without(l.positive, mask);
    let negative = masks::without(l.negative, mask);
    Lits { positive, negative }
}

// Two remnants are alike but for one variable, of opposite signs.
pub fn merges(l: Lits, m: Lits) -> bool
    ensures { result ≡ merges_two l m }
{
    let v = clash(l, m);
    (masks::count(v) == 1) & apart_from(v, l).is_same(apart_from(v, m))
}
