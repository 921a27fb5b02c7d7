ghost use Rattle.std.specs.Prelude.{◌≡◌, ◌++◌, ◌∷◌, bytes_eq, codes, find, length, map, not, IfOk, OnOk};
ghost use Rattle.std.specs.Fmt.{decimal};
ghost use Rattle.std.specs.List.{list_any};
ghost use Rattle.larch_prove_plans.specs.Planning.{names_of_operators};
ghost use Rattle.larch_prove_meaning.specs.NewNames.{all_bytes, constant_named, free_name, new_constants, numbered_from};

use larch_base::{Memory, Name, Sequence};
use larch_term::{Operator, Operators, Sort, Variable};
use std::alloc::Global;

/// The first of a word, the word with 1, with 2, .. that isn't taken.
pub fn free_name(alloc: Global, taken: &[Name], word: &[u8]) -> Result<Name, Memory>
    ensures { IfOk result (λ n. n ≡ free_name taken.now word.now) }
{
    if !is_among(word, taken) {
        let name = Name::new(alloc, word)?;
        return Ok(name);
    }
    if let Some(name) = free_number(alloc, taken, word)? {
        return Ok(name);
    }
    let name = longer_name(alloc, taken, word)?;
    Ok(name)
}

// Whether a name is one of some.
fn is_among(name: &[u8], names: &[Name]) -> bool
    ensures { result ≡ list_any (bytes_eq name.now) names.now }
{
    names.iter().any(|other| name == other.bytes())
}

// The first of a word with 1, with 2, .. that isn't taken, as many of them being tried as are taken.
fn free_number(alloc: Global, taken: &[Name], word: &[u8]) -> Result<Option<Name>, Memory>
    ensures { IfOk result (λ n. n ≡ find (λ m. not (list_any (bytes_eq m) taken.now))
        (numbered_from word.now 1 (length taken.now))) }
{
    for i in 0..taken.len() {
        let name = word_numbered(alloc, word, i + 1)?;
        if !is_among(name.bytes(), taken) {
            return Ok(Some(name));
        }
    }
    Ok(None)
}

// A word with a number behind it.
fn word_numbered(alloc: Global, word: &[u8], number: usize) -> Result<Name, Memory>
    ensures { IfOk result (λ n. n ≡ word.now ++ decimal number) }
{
    let digits = number.to_string(alloc)?;
    let mut bytes = Vec::from_slice(alloc, word)?;
    bytes.extend_from_slice(digits.as_bytes())?;
    let name = Name::new(alloc, bytes.as_slice())?;
    Ok(name)
}

// A name that is longer than all that are taken.
fn longer_name(alloc: Global, taken: &[Name], word: &[u8]) -> Result<Name, Memory>
    ensures { IfOk result (λ n. n ≡ word.now ++ all_bytes taken.now) }
{
    let mut bytes = Vec::from_slice(alloc, word)?;
    for name in taken {
        bytes.extend_from_slice(name.bytes())?;
    }
    let name = Name::new(alloc, bytes.as_slice())?;
    Ok(name)
}

// New constants named after variables, at their sorts, one after the other.
pub(crate) fn new_constants(
    alloc: Global,
    taken: &[Name],
    variables: &[Variable],
) -> Result<Operators, Memory>
    ensures { IfOk result (λ cs. cs ≡ new_constants taken.now variables.now) }
{
    let mut used = copy_names(alloc, taken)?;
    let mut constants = Sequence::new(alloc);
    for variable in variables {
        let constant = new_constant(alloc, &mut used, variable)?;
        constants.push(constant)?;
    }
    Ok(constants)
}

// A new constant named after a variable, whose name is then taken.
fn new_constant(
    alloc: Global,
    taken: &mut Vec<Name>,
    variable: &Variable,
) -> Result<Operator, Memory>
    ensures constant { IfOk result (λ c. c ≡ constant_named (free_name taken.old.items (variable.now.name ++ codes "c"))
        variable.now.sort) }
    ensures taken { OnOk result (taken.new.items
        ≡ free_name taken.old.items (variable.now.name ++ codes "c") ∷ taken.old.items) }
{
    let name = name_after(alloc, taken.as_slice(), &variable.name)?;
    let constant = constant_named(alloc, &name, &variable.sort)?;
    taken.insert(0, name)?;
    Ok(constant)
}

fn name_after(alloc: Global, taken: &[Name], name: &Name) -> Result<Name, Memory>
    ensures { IfOk result (λ n. n ≡ free_name taken.now (name.now ++ codes "c")) }
{
    let mut word = Vec::from_slice(alloc, name.bytes())?;
    word.extend_from_slice(b"c")?;
    let name = free_name(alloc, taken, word.as_slice())?;
    Ok(name)
}

// A constant with a name.
pub(crate) fn constant_named(alloc: Global, name: &Name, sort: &Sort) -> Result<Operator, Memory>
    ensures { IfOk result (λ c. c ≡ constant_named name.now sort.now) }
{
    let name = name.copy()?;
    let sort = sort.copy()?;
    let constant = Operator::new(alloc, name, Sequence::new(alloc), sort)?;
    Ok(constant)
}

pub(crate) fn copy_names(alloc: Global, names: &[Name]) -> Result<Vec<Name>, Memory>
    ensures { IfOk result (λ copies. copies.items ≡ names.now) }
{
    let mut copies = Vec::with_capacity(alloc, names.len())?;
    for name in names {
        let copied = name.copy()?;
        copies.push(copied)?;
    }
    Ok(copies)
}

// The names of operators, before further ones.
pub(crate) fn names_before(
    alloc: Global,
    operators: &[Operator],
    names: Vec<Name>,
) -> Result<Vec<Name>, Memory>
    ensures { IfOk result (λ all. all.items ≡ names_of_operators operators.now ++ names.items) }
{
    let mut further = names;
    let mut all = Vec::new(alloc);
    for operator in operators {
        let name = operator.name().copy()?;
        all.push(name)?;
    }
    all.append(&mut further)?;
    Ok(all)
}
