ghost use Rattle.std.specs.Prelude.{◌≡◌, ℕ, IfOk};
ghost use Rattle.larch_trim.specs.ByNumbers.{move_of, number_at};
ghost use Rattle.larch_trim_meaning.specs.Trimmed.{new_number};
ghost use Rattle.larch_verify_law.specs.Moves.{moved_symbol};

use larch_base::{Memory, Sequence, numbered};
use larch_certificate::Symbol;
use std::alloc::Global;

/// The new numbers of lines and boxes, where only those with marks are kept.
#[derive(Drop)]
pub struct NewNumbers {
    /// Of each line, how many lines up to it are kept.
    pub numbers: Sequence<u64>,
    /// How many lines are kept.
    pub all: u64,
}

impl NewNumbers {
    /// The new numbers where lines have these marks.
    pub fn new(alloc: Global, marks: &[bool]) -> Result<NewNumbers, Memory>
        ensures { IfOk result (λ numbers. (n : ℕ) → number_at numbers n ≡ new_number marks.now n) }
    {
        let mut numbers = Sequence::new(alloc);
        let mut all = 0;
        for marked in marks {
            if *marked {
                all += 1;
            }
            numbers.push(all)?;
        }
        Ok(NewNumbers { numbers, all })
    }

    /// The new number of a line or box.
    pub fn number(&self, number: u64) -> u64
        ensures { result ≡ number_at self.now number }
    {
        if number == 0 {
            return 0;
        }
        match numbered(self.numbers.as_slice(), number) {
            Some(new) => *new,
            None => self.all,
        }
    }

    /// The symbol, with the new number of its box.
    pub fn symbol(&self, symbol: Symbol) -> Symbol
        ensures { result ≡ moved_symbol (move_of self.now) symbol }
    {
        match symbol {
            Symbol::Constant(number, part) => Symbol::Constant(self.number(number), part),
            Symbol::Own(_) | Symbol::BuiltIn(_) => symbol,
        }
    }
}
