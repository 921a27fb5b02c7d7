ghost use Rattle.std.specs.Prelude.{◌≡◌};
ghost use Rattle.larch_derive_join.specs.Joined.{moved_on};
ghost use Rattle.larch_derive_join.specs.ByShift.{clause_at, lemma_at, move_of};
ghost use Rattle.larch_verify_law.specs.Moves.{moved_symbol};

use crate::lemma::Lemma;
use crate::part::Part;
use larch_base::numbered;
use larch_certificate::{Line, Symbol};

/// By what the lines of a part are moved: the number of lines in front of them, and the lemmas that stand there.
#[derive(Drop)]
pub struct Shift<'a> {
    /// How many lines stand in front.
    pub by: u64,
    /// The lemmas, which the part cites behind its own statements.
    pub lemmas: &'a [Lemma],
    /// The part.
    pub part: &'a Part,
}

impl<'a> Shift<'a> {
    /// The number of a box moved on, and of a line that cites no clause. Beyond the last number it goes round.
    #[tactic(auto, using(crate::proofs::Moving::goes_round))]
    pub fn number(&self, number: u64) -> u64
        ensures { result ≡ moved_on self.now.by number }
    {
        number.wrapping_add(self.by)
    }

    /// The number of a line moved on; where the line cites a clause, that of the line that shows it.
    pub fn line(&self, number: u64) -> u64
        ensures { result ≡ (move_of self.now).line number }
    {
        match self.clause(number) {
            Some(clause) => clause.line,
            None => self.number(number),
        }
    }

    /// The symbol, with the number of its box moved on.
    pub fn symbol(&self, symbol: Symbol) -> Symbol
        ensures { result ≡ moved_symbol (move_of self.now) symbol }
    {
        match symbol {
            Symbol::Constant(number, part) => Symbol::Constant(self.number(number), part),
            Symbol::Own(_) | Symbol::BuiltIn(_) => symbol,
        }
    }

    /// The lemma that a line of the part cites, if it cites one.
    pub fn lemma(&self, line: &Line) -> Option<Lemma>
        ensures { result ≡ lemma_at self.now line.now }
    {
        match line {
            Line::Axiom(statement) => {
                numbered(self.lemmas, statement.saturating_sub(self.part.statements)).copied()
            }
            _ => None,
        }
    }

    // The clause that the line with this number cites, if it cites one.
    fn clause(&self, number: u64) -> Option<Lemma>
        ensures { result ≡ clause_at self.now number }
    {
        let line = numbered(self.part.certificate.as_slice(), number)?;
        let lemma = self.lemma(line)?;
        if lemma.clause { Some(lemma) } else { None }
    }
}
