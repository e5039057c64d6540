// A refusal's number and place.
ghost use Rattle.std.specs.Prelude.{◌≡◌};
ghost use Rattle.rules.specs.Refusals.{numbered};

use rules::{Numbered, Refusal};

// The place is the row, the line or the clause; 0 where there is none.
pub fn numbered(why: Refusal) -> Numbered
    ensures { result ≡ numbered why }
{
    match why {
        Refusal::TooManyVariables => Numbered(1, 0),
        Refusal::BadTable => Numbered(2, 0),
        Refusal::BadCapacity => Numbered(3, 0),
        Refusal::NoRoom => Numbered(4, 0),
        Refusal::BadLiterals(row) => Numbered(5, row),
        Refusal::BadWeight(row) => Numbered(6, row),
        Refusal::SumTooLarge => Numbered(7, 0),
        Refusal::BadReading => Numbered(8, 0),
        Refusal::BadBudget => Numbered(9, 0),
        Refusal::BadDesk => Numbered(10, 0),
        Refusal::TooManySteps => Numbered(11, 0),
        Refusal::BadLiteral => Numbered(12, 0),
        Refusal::BadNaming => Numbered(13, 0),
        Refusal::BadFit => Numbered(14, 0),
        Refusal::DeskFull => Numbered(15, 0),
        Refusal::NothingStands => Numbered(16, 0),
        Refusal::InputTooLong => Numbered(19, 0),
        Refusal::BadText(line) => Numbered(20, line),
    }
}
