// A desk that was judged, and what its head and its rows in use hold.
ghost use Rattle.std.specs.Prelude.{◌≡◌, ◌<◌};
ghost use Rattle.rules.specs.Desk.{variables, in_use, conceded, row_on};
ghost use Rattle.desk_laws.specs.Readable.{Readable};

use rules::{Desk, Row};

// The words of a desk that can be read, or of the front of one.
#[derive(Clone, Copy)]
pub struct JudgedDesk<'a> {
    pub words: &'a [u64],
    pub ghost readable: { Readable words.now },
}

impl JudgedDesk<'_> {
    pub fn variables(self) -> u64
        ensures { result ≡ variables self.entry.words.now }
    {
        rules::word(self.words, Desk::VARIABLES)
    }

    pub fn in_use(self) -> u64
        ensures { result ≡ in_use self.entry.words.now }
    {
        rules::word(self.words, Desk::IN_USE)
    }

    pub fn conceded(self) -> u64
        ensures { result ≡ conceded self.entry.words.now }
    {
        rules::word(self.words, Desk::CONCEDED)
    }

    // Row i of those in use.
    pub fn row(self, i: usize) -> Row
        requires { i < in_use self.words.now }
        ensures { result ≡ row_on self.entry.words.now i }
    {
        words::inner::row_on(self.words, i)
    }
}
