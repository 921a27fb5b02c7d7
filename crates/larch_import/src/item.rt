ghost use Rattle.std.specs.Prelude.{◌≡◌, IfOk, map};
ghost use Rattle.larch_import.specs.ByWords.{move_of};
ghost use Rattle.larch_verify_law.specs.Moves.{Move, moved_binding, moved_equation, moved_part, moved_variable};

use crate::term::move_term;
use crate::words::NewWords;
use larch_base::{Memory, Name, Sequence, let_go};
use larch_certificate::{Binding, BoxPart, CodedEquation, CodedVar, Numbers};
use larch_term::Sort;
use std::alloc::Global;

/// What stands in lists of a line and has sorts.
pub trait Item: Drop {
    ghost moves: { Move → Self → Self };

    /// The item by new words.
    fn move_on(&self, alloc: Global, words: &NewWords) -> Result<Self, Memory>
        ensures { IfOk result (λ item. item ≡ moves (move_of words.now) self.now) };
}

/// The items by new words.
pub fn move_items<T: Item>(
    alloc: Global,
    words: &NewWords,
    items: &[T],
) -> Result<Sequence<T>, Memory>
    ensures { IfOk result (λ moved. moved ≡ map (T.moves (move_of words.now)) items.now) }
{
    let mut moved = Sequence::new(alloc);
    for item in items {
        let item = item.move_on(alloc, words)?;
        moved.push(item)?;
    }
    Ok(moved)
}

/// The new numbers of operators.
pub fn move_operators(alloc: Global, words: &NewWords, named: &[u64]) -> Result<Numbers, Memory>
    ensures { IfOk result (λ moved. moved ≡ map (move_of words.now).operator named.now) }
{
    let mut moved = Sequence::new(alloc);
    for number in named {
        moved.push(words.operator(*number))?;
    }
    Ok(moved)
}

/// The same numbers once more.
pub fn copy_numbers(alloc: Global, numbers: &[u64]) -> Result<Numbers, Memory>
    ensures { IfOk result (λ copied. copied ≡ numbers.now) }
{
    let copied = Vec::from_slice(alloc, numbers)?;
    Ok(Sequence::from_vec(copied))
}

/// The variable at its new sort.
pub fn move_variable(
    alloc: Global,
    words: &NewWords,
    variable: &CodedVar,
) -> Result<CodedVar, Memory>
    ensures { IfOk result (λ moved. moved ≡ moved_variable (move_of words.now) variable.now) }
{
    move_names(alloc, words, &variable.name, &variable.sort)
}

// A name with the new sort.
fn move_names(alloc: Global, words: &NewWords, name: &Name, sort: &Sort) -> Result<CodedVar, Memory>
    ensures { IfOk result (λ moved. moved
        ≡ record { name = name.now; sort = (move_of words.now).renaming.sort sort.now }) }
{
    let name = name.copy()?;
    match words.sort(alloc, sort) {
        Ok(sort) => Ok(CodedVar { name, sort }),
        Err(memory) => Err(let_go(memory, name)),
    }
}

/// The same numbers once more, of lines or boxes.
#[tactic(auto, using(crate::proofs::Moving::all_kept))]
pub fn keep_numbers(alloc: Global, numbers: &[u64]) -> Result<Numbers, Memory>
    ensures { IfOk result (λ kept. kept ≡ map (λ n. n) numbers.now) }
{
    let kept = copy_numbers(alloc, numbers)?;
    Ok(kept)
}

impl Item for CodedVar {
    ghost moves = { moved_variable };

    fn move_on(&self, alloc: Global, words: &NewWords) -> Result<CodedVar, Memory> {
        move_variable(alloc, words, self)
    }
}

impl Item for BoxPart {
    ghost moves = { moved_part };

    fn move_on(&self, alloc: Global, words: &NewWords) -> Result<BoxPart, Memory> {
        let sort = words.sort(alloc, &self.sort)?;
        let predicate = self.predicate;
        Ok(BoxPart { sort, predicate })
    }
}

/// The equation by new words.
pub fn move_equation(
    alloc: Global,
    words: &NewWords,
    equation: &CodedEquation,
) -> Result<CodedEquation, Memory>
    ensures { IfOk result (λ moved. moved ≡ moved_equation (move_of words.now) equation.now) }
{
    let left = move_term(alloc, words, &equation.left)?;
    match move_term(alloc, words, &equation.right) {
        Ok(right) => Ok(CodedEquation { left, right }),
        Err(memory) => Err(let_go(memory, left)),
    }
}

impl Item for CodedEquation {
    ghost moves = { moved_equation };

    fn move_on(&self, alloc: Global, words: &NewWords) -> Result<CodedEquation, Memory> {
        move_equation(alloc, words, self)
    }
}

impl Item for Binding {
    ghost moves = { moved_binding };

    fn move_on(&self, alloc: Global, words: &NewWords) -> Result<Binding, Memory> {
        let term = move_term(alloc, words, &self.term)?;
        match move_names(alloc, words, &self.name, &self.sort) {
            Ok(CodedVar { name, sort }) => Ok(Binding { name, sort, term }),
            Err(memory) => Err(let_go(memory, term)),
        }
    }
}
