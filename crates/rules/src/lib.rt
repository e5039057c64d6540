// The kinds of value that document 01 speaks of, each with its limits; rows and heads of desks are made here, and parts fixed.
// What they mean stands in specs/, in document 01's words and order. Nothing here asks anything of its caller.
#![tactic(auto)]

use literals::Lits;

mod heads;
mod parts;
mod rows;
mod ties;

pub use heads::word;
pub use ties::all_figures;

// A row of a table: its literals, its weight, and its mark, 1 for a hard row and 0 for a soft one.
#[derive(Clone, Copy)]
pub struct Row {
    pub lits: Lits,
    pub weight: u64,
    pub mark: u64,
}

// The first words of a desk, which say how the rest lies.
#[derive(Clone, Copy)]
pub struct Desk {
    pub variables: u64,
    pub in_use: u64,
    pub capacity: u64,
    pub standing: u64,
    pub conceded: u64,
    pub decided: u64,
    pub truths: u64,
    pub loaded: u64,
}

// A step's entry. It lies in words alone, so that this has no field; its limits stand with it.
#[derive(Clone, Copy)]
pub struct Entry {}

// The figures of document 01.
#[derive(Clone, Copy)]
pub struct Figures {
    pub variables: u64,
    pub row_words: usize,
    pub rows: usize,
    pub weight: u64,
    pub head: usize,
    pub capacity: u64,
    pub steps: u64,
    pub entry_words: usize,
    pub entries_words: usize,
    pub kind: u64,
    pub named: usize,
    pub longest: usize,
    pub digits: usize,
    pub budget: u64,
    pub input: usize,
    pub input_rows: usize,
}

// A partial reading: the variables that have a value, and those of them that are true.
#[derive(Clone, Copy)]
pub struct Part {
    pub decided: u64,
    pub truths: u64,
}

// How far a walk has come: the nodes visited, the weight to stay below, whether a reading is kept and which, and whether a
// node was due that the budget did not allow.
#[derive(Clone, Copy)]
pub struct Walked {
    pub nodes: u64,
    pub best: u64,
    pub kept: bool,
    pub reading: u64,
    pub stopped: bool,
}

#[derive(Clone, Copy)]
pub enum Status {
    Done,
    Stopped,
    Impossible,
}

// The best reading that a search met.
#[derive(Clone, Copy)]
pub struct Best {
    pub weight: u64,
    pub reading: u64,
}

#[derive(Clone, Copy)]
pub struct Found {
    pub status: Status,
    pub best: Option<Best>,
    pub nodes: u64,
}

// Why a call is refused.
#[derive(Clone, Copy)]
pub enum Refusal {
    TooManyVariables,
    BadTable,
    BadCapacity,
    NoRoom,
    // The row.
    BadLiterals(u64),
    // The row.
    BadWeight(u64),
    SumTooLarge,
    BadReading,
    BadBudget,
    BadDesk,
    TooManySteps,
    BadLiteral,
    BadNaming,
    BadFit,
    DeskFull,
    NothingStands,
    InputTooLong,
    // The line.
    BadText(u64),
}

// A refusal's number and place.
#[derive(Clone, Copy)]
pub struct Numbered(pub u64, pub u64);

// The weight of a reading, and whether every hard row holds.
#[derive(Clone, Copy)]
pub struct Weight {
    pub weight: u64,
    pub hold: bool,
}

// Where a bound comes from: what is conceded, what is lost beyond that, and what is foreseen. The first two are certain.
#[derive(Clone, Copy)]
pub struct Losses {
    pub conceded: u64,
    pub lost: u64,
    pub foreseen: u64,
}

// Which bound: document 01's, by the units that clash, or the bound by groups.
#[derive(Clone, Copy)]
pub enum Choice {
    Units,
    Groups,
}

// What an input of a program comes to: a search of so many variables, with the losses at its root.
#[derive(Clone, Copy)]
pub struct Outcome {
    pub variables: u64,
    pub root: Losses,
    pub found: Found,
}

// The first three lines of a text, and the place behind them.
#[derive(Clone, Copy)]
pub struct HeadRead {
    pub variables: u64,
    pub budget: u64,
    pub rows: u64,
    pub next: usize,
}

// What a text says beside its rows.
#[derive(Clone, Copy)]
pub struct TextRead {
    pub variables: u64,
    pub budget: u64,
    pub rows: u64,
}

// What the header of a competition file says, with the place behind it and its line.
#[derive(Clone, Copy)]
pub struct WcnfHead {
    pub variables: u64,
    pub clauses: u64,
    pub top: u64,
    pub next: usize,
    pub line: u64,
}

// What a competition file says beside its clauses.
#[derive(Clone, Copy)]
pub struct WcnfRead {
    pub variables: u64,
    pub rows: u64,
}
