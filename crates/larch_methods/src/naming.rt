ghost use Rattle.std.specs.Prelude.{◌≡◌, ◌<◌, ◌≤◌, suc, length, map, All, IfOk};
ghost use Rattle.larch_methods.specs.Inside.{written_variable};
ghost use Rattle.larch_methods.specs.Observers.{HasShorterNames, variables_for, word_of};

use larch_base::{Memory, Name, Sequence};
use larch_certificate::{CodedVar, CodedVars};
use larch_term::{Operator, Sort, Term, Variable, variables};
use std::alloc::Global;

// A number of letters that is above those of all names of variables of two terms, and not 0.
pub(crate) fn letters_above(alloc: Global, left: &Term, right: &Term) -> Result<usize, Memory>
    ensures left { IfOk result (λ n. HasShorterNames n left.now) }
    ensures right { IfOk result (λ n. HasShorterNames n right.now) }
    ensures least { IfOk result (λ n. 0 < n) }
{
    let of_left = variables(alloc, left)?;
    let of_right = variables(alloc, right)?;
    let letters = longer(of_left.as_slice(), 1)?;
    let letters = longer(of_right.as_slice(), letters)?;
    Ok(letters)
}

// A number of letters that is above those of all names of variables, and at least another one.
fn longer(variables: &[Variable], letters: usize) -> Result<usize, Memory>
    ensures least { IfOk result (λ n. letters ≤ n) }
    ensures above { IfOk result (λ n. All (λ v. length v.name < n) variables.now) }
{
    let mut above = letters;
    for variable in variables {
        above = above_both(variable.name.bytes().len(), above)?;
    }
    Ok(above)
}

fn above_both(length: usize, letters: usize) -> Result<usize, Memory>
    ensures { IfOk result (λ n. (letters ≤ n) × (length < n)) }
{
    if length < letters {
        return Ok(letters);
    }
    let above = one_more(length)?;
    Ok(above)
}

fn one_more(length: usize) -> Result<usize, Memory>
    ensures { IfOk result (λ n. n ≡ suc length) }
{
    match length.checked_add(1) {
        Some(above) => Ok(above),
        None => Err(Memory),
    }
}

// Variables for constants, the first with a name of so many letters, each further one with one letter more.
pub(crate) fn variables_for(
    alloc: Global,
    letters: usize,
    constants: &[Operator],
) -> Result<CodedVars, Memory>
    ensures { IfOk result (λ vs. vs ≡ map written_variable (variables_for letters constants.now)) }
{
    let mut coded = Sequence::new(alloc);
    let mut next = letters;
    for constant in constants {
        let variable = variable_at(alloc, next, constant.range())?;
        coded.push(variable)?;
        next = one_more(next)?;
    }
    Ok(coded)
}

fn variable_at(alloc: Global, letters: usize, sort: &Sort) -> Result<CodedVar, Memory>
    ensures name { IfOk result (λ v. v.name ≡ word_of letters) }
    ensures sort { IfOk result (λ v. v.sort ≡ sort.now) }
{
    let name = word_of(alloc, letters)?;
    let sort = sort.copy()?;
    Ok(CodedVar { name, sort })
}

// So many letters x, as a name.
fn word_of(alloc: Global, letters: usize) -> Result<Name, Memory>
    ensures { IfOk result (λ name. name ≡ word_of letters) }
{
    let mut bytes = Vec::new(alloc);
    for letter in 0..letters {
        let _ = letter;
        bytes.push(b'x')?;
    }
    let name = Name::new(alloc, bytes.as_slice())?;
    Ok(name)
}
