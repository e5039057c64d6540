// The kinds of step, and the constant table by kind.
#![tactic(auto)]

ghost use Rattle.std.specs.Prelude.{◌≡◌, ◌<◌, MatchOption};
ghost use Rattle.rules.specs.Steps.{most_kind, fewest, most, fewer_added, concedes, count_fits};
ghost use Rattle.kinds.specs.Numbers.{number};

use rules::Entry;

// The most links that a chain or a fork may have.
const LINKS: u64 = Entry::LONGEST as u64;

// A step's kind, in the order of document 01's numbers, which begin at 0.
#[derive(Clone, Copy)]
pub enum Kind {
    Decision,
    Merge,
    Shift,
    Chain,
    Fork,
}

impl Kind {
    // The kind that has a number. Above 4 there is none.
    pub fn of(n: u64) -> Option<Kind>
        ensures { MatchOption result (most_kind < n) (λ k. number k ≡ n) }
    {
        match n {
            0 => Some(Kind::Decision),
            1 => Some(Kind::Merge),
            2 => Some(Kind::Shift),
            3 => Some(Kind::Chain),
            4 => Some(Kind::Fork),
            _ => None,
        }
    }

    pub fn number(self) -> u64
        ensures { result ≡ number self }
    {
        self as u64
    }

    // Whether so many rows may be named.
    #[tactic(auto, unfolding(rules::specs::Steps::count_fits))]
    pub fn count_fits(self, n: u64) -> bool
        ensures { result ≡ count_fits (number self) n }
    {
        (self.fewest() <= n) & (n <= self.most())
    }

    // Fewest rows named.
    #[tactic(auto, unfolding(rules::specs::Steps::fewest))]
    fn fewest(self) -> u64
        ensures { result ≡ fewest (number self) }
    {
        match self {
            Kind::Decision => 0,
            Kind::Merge | Kind::Shift | Kind::Chain => 2,
            Kind::Fork => 4,
        }
    }

    // Most rows named.
    #[tactic(auto, unfolding(rules::specs::Steps::most))]
    fn most(self) -> u64
        ensures { result ≡ most (number self) }
    {
        match self {
            Kind::Decision => 0,
            Kind::Merge | Kind::Shift => 2,
            Kind::Chain => 2 + LINKS,
            Kind::Fork => 4 + LINKS,
        }
    }

    // Rows named less rows added.
    #[tactic(auto, unfolding(rules::specs::Steps::fewer_added))]
    pub fn fewer_added(self) -> u64
        ensures { result ≡ fewer_added (number self) }
    {
        match self {
            Kind::Decision | Kind::Shift => 0,
            Kind::Merge => 1,
            Kind::Chain | Kind::Fork => 2,
        }
    }

    // 1 where the kind concedes w, else 0.
    #[tactic(auto, unfolding(rules::specs::Steps::concedes))]
    pub fn concedes(self) -> u64
        ensures { result ≡ concedes (number self) }
    {
        match self {
            Kind::Decision | Kind::Merge | Kind::Shift => 0,
            Kind::Chain | Kind::Fork => 1,
        }
    }
}

// The figures by a kind's number, of any number: where there is no kind, each figure is 0.

#[tactic(auto, unfolding(rules::specs::Steps::count_fits, rules::specs::Steps::fewest, rules::specs::Steps::most))]
pub fn count_fits(kind: u64, n: u64) -> bool
    ensures { result ≡ count_fits kind n }
{
    match Kind::of(kind) {
        Some(known) => known.count_fits(n),
        None => n == 0,
    }
}

// Rows named less rows added.
#[tactic(auto, unfolding(rules::specs::Steps::fewer_added))]
pub fn fewer_added(kind: u64) -> u64
    ensures { result ≡ fewer_added kind }
{
    match Kind::of(kind) {
        Some(known) => known.fewer_added(),
        None => 0,
    }
}

// 1 where the kind concedes w, else 0.
#[tactic(auto, unfolding(rules::specs::Steps::concedes))]
pub fn concedes(kind: u64) -> u64
    ensures { result ≡ concedes kind }
{
    match Kind::of(kind) {
        Some(known) => known.concedes(),
        None => 0,
    }
}
