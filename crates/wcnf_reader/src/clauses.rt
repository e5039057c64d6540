// The clauses of a text: judged line by line, then read once more and stored.
ghost use Rattle.std.specs.Prelude.{◌≡◌, ◌+◌, ◌*◌, ◌≤◌, eqb, length, Ok};
ghost use Rattle.std.proofs.lemmas.List.Edits.{sets};
ghost use Rattle.rules.specs.Table.{row_words, most_rows};
ghost use Rattle.rules.specs.WcnfReader.{header_says, clauses_why, header_why, clause_row, clauses_words};

use literals::{Literal, Lits};
use rules::{Refusal, Row};

// Nothing follows.
fn ends(s: &[u8], at: usize) -> bool
    ensures { result ≡ eqb at (length s.now) }
{
    at == s.len()
}

// The clauses, of which the first is on this line, and that nothing follows them: line by line 20, 5.
fn clauses_why(
    s: &[u8],
    from: usize,
    clauses: u64,
    variables: u64,
    first: u64,
) -> Result<(), Refusal>
    requires { (clauses ≤ most_rows) × (first ≤ length s.now + 2) }
    ensures { result ≡ clauses_why clauses 0 variables s.now from first }
{
    let mut at = from;
    for i in 0..clauses {
        let clause = wcnf_pieces::clause_at(s, at, variables).ok_or(Refusal::BadText(first + i))?;
        if clause.bad {
            return Err(Refusal::BadLiterals(i));
        }
        at = clause.next;
    }
    if ends(s, at) {
        return Ok(());
    }
    let line = first + clauses;
    Err(Refusal::BadText(line))
}

// In the reader's order: 1, 2, 4, the clauses, which begin on the line behind the header's. Top has no part in it.
pub fn figures_why(
    most: usize,
    s: &[u8],
    room: usize,
    variables: u64,
    clauses: u64,
    from: usize,
    line: u64,
) -> Result<(), Refusal>
    requires { (most ≤ most_rows) × (line ≤ length s.now + 1) }
    ensures { result ≡ header_why most s.now room (Ok (header_says variables clauses 0 from line)) }
{
    if variables > Literal::MOST {
        return Err(Refusal::TooManyVariables);
    }
    let count = clauses as usize;
    if count > most {
        return Err(Refusal::BadTable);
    }
    if room < Row::WORDS * count {
        return Err(Refusal::NoRoom);
    }
    let first = line + 1;
    clauses_why(s, from, clauses, variables, first)
}

// A clause whose weight is top or above is hard.
fn clause_row(top: u64, weight: u64, lits: Lits) -> Row
    ensures { result ≡ clause_row top weight lits }
{
    if top <= weight {
        return Row::hard(lits);
    }
    Row::new(lits, weight)
}

// The clauses once more, now stored, of which the first that breaks the form would end them.
pub fn store_rows(s: &[u8], from: usize, rows: usize, top: u64, table: &mut [u64])
    requires { row_words * rows ≤ length table.old }
    ensures { table.new ≡ sets table.old 0 (clauses_words rows top s.now from) }
{
    let mut at = from;
    for i in 0..rows {
        let Some(clause) = wcnf_pieces::clause_at(s, at, Literal::MOST) else {
            return;
        };
        let row = clause_row(top, clause.weight, clause.lits);
        words::inner::set_row_in(table, Row::WORDS * i, row);
        at = clause.next;
    }
}
