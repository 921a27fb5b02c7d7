ghost use Rattle.std.specs.Prelude.{◌≡◌, ◌++◌, IfOk, replicate};
ghost use Rattle.larch_verify_law.specs.Moves.{moved_symbol};
ghost use Rattle.larch_import_names.specs.Names.{sort_or};
ghost use Rattle.larch_import_meaning.specs.Fresh.{fresh_sort};
ghost use Rattle.larch_import_meaning.specs.Imported.{number_in_place};
ghost use Rattle.larch_import.specs.ByWords.{move_of};

use larch_base::{Memory, Name, numbered};
use larch_certificate::{Numbers, Symbol};
use larch_import_names::Renaming;
use larch_term::Sort;
use std::alloc::Global;

/// What takes the place of what lines name.
#[derive(Drop)]
pub struct NewWords<'a> {
    /// The new sorts of sorts that are named.
    pub renaming: &'a Renaming,
    /// How many letters other sorts get.
    pub letters: usize,
    /// The new numbers of the theory's operators.
    pub operators: Numbers,
    /// The new numbers of its statements.
    pub places: &'a [u64],
}

impl NewWords<'_> {
    /// The new sort of a sort.
    pub fn sort(&self, alloc: Global, sort: &Sort) -> Result<Sort, Memory>
        ensures { IfOk result (λ new. new ≡ (move_of self.now).renaming.sort sort.now) }
    {
        match self.renaming.new_sort(sort) {
            Some(new) => {
                let new = new.copy()?;
                Ok(new)
            }
            None => {
                let new = fresh_sort(alloc, self.letters, sort)?;
                Ok(new)
            }
        }
    }

    /// The new number of an operator.
    pub fn operator(&self, number: u64) -> u64
        ensures { result ≡ (move_of self.now).operator number }
    {
        number_in_place(self.operators.as_slice(), number)
    }

    /// The new number of a statement.
    pub fn statement(&self, number: u64) -> u64
        ensures { result ≡ (move_of self.now).statement number }
    {
        number_in_place(self.places, number)
    }

    /// The symbol, with the new number of its operator.
    pub fn symbol(&self, symbol: Symbol) -> Symbol
        ensures { result ≡ moved_symbol (move_of self.now) symbol }
    {
        match symbol {
            Symbol::Own(number) => Symbol::Own(self.operator(number)),
            Symbol::Constant(_, _) | Symbol::BuiltIn(_) => symbol,
        }
    }
}

// The number that a list has in place of a number.
fn number_in_place(numbers: &[u64], number: u64) -> u64
    ensures { result ≡ number_in_place numbers.now number }
{
    match numbered(numbers, number) {
        Some(new) => *new,
        None => number,
    }
}

// The sort behind so many letters.
fn fresh_sort(alloc: Global, letters: usize, sort: &Sort) -> Result<Sort, Memory>
    ensures { IfOk result (λ new. new ≡ fresh_sort letters sort.now) }
{
    let mut bytes = letters_before(alloc, letters)?;
    bytes.extend_from_slice(sort.bytes())?;
    let new = Name::new(alloc, bytes.as_slice())?;
    Ok(new)
}

// So many letters.
fn letters_before(alloc: Global, letters: usize) -> Result<Vec<u8>, Memory>
    ensures { IfOk result (λ bytes. bytes.items ≡ replicate letters 115) }
{
    let mut bytes = Vec::new(alloc);
    for _ in 0..letters {
        bytes.push(b's')?;
    }
    Ok(bytes)
}
