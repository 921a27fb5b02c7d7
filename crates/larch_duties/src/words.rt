ghost use Rattle.std.specs.Prelude.{◌≡◌, ◌++◌, ℕ, List, bytes_eq, codes, map, IfOk, OnOk};
ghost use Rattle.std.specs.List.{list_any};
ghost use Rattle.larch_duties_meaning.specs.Conversions.{bytes_of, free_word, word_tried};
ghost use Rattle.larch_duties.specs.Names.{FindsNames, with_word};

use indexmap::IndexSet;
use larch_base::{Memory, Name, is_word};
use larch_term::Operator;
use std::alloc::Global;

// The names of operators, each once.
pub(crate) fn names_of(alloc: Global, operators: &[Operator]) -> Result<IndexSet<Name>, Memory>
    ensures { IfOk result (λ names. FindsNames names.keys (map (λ f. bytes_of f.name) operators.now)) }
{
    let mut names = IndexSet::new(alloc);
    for operator in operators {
        take_word(&mut names, operator.name())?;
    }
    Ok(names)
}

// With one more name.
pub(crate) fn take_word(names: &mut IndexSet<Name>, word: &Name) -> Result<(), Memory>
    ensures { OnOk result (names.new.keys ≡ with_word names.old.keys word.now) }
{
    let word = word.copy()?;
    names.insert(word)?;
    Ok(())
}

// The word for the copy of an operator at a place, where these names are taken.
pub(crate) fn word_for(
    alloc: Global,
    taken: &IndexSet<Name>,
    place: usize,
    operator: &Operator,
) -> Result<Name, Memory>
    ensures { (names : List (List ℕ)) → FindsNames taken.now.keys names
        → IfOk result (λ word. word ≡ free_word names (word_tried place (bytes_of operator.now.name))) }
{
    let tried = word_tried(alloc, place, operator.name())?;
    let word = free_word(alloc, taken, tried)?;
    Ok(word)
}

// The word that is tried first.
fn word_tried(alloc: Global, place: usize, name: &Name) -> Result<Name, Memory>
    ensures { IfOk result (λ word. word ≡ word_tried place name.now) }
{
    if is_word(name.bytes()) {
        let word = with_prime(alloc, name)?;
        return Ok(word);
    }
    let text = format!(in alloc; "conv{place}'")?;
    let word = Name::new(alloc, text.as_bytes())?;
    Ok(word)
}

// The first of a word, the word with ', with '', .. that isn't taken. Words differ by their lengths, so that no more of
// them are taken than there are names.
fn free_word(alloc: Global, taken: &IndexSet<Name>, tried: Name) -> Result<Name, Memory>
    ensures { (names : List (List ℕ)) → FindsNames taken.now.keys names
        → IfOk result (λ word. word ≡ free_word names tried) }
{
    let mut word = tried;
    while is_taken(taken, &word) {
        word = with_prime(alloc, &word)?;
    }
    Ok(word)
}

// Whether a name is taken.
fn is_taken(taken: &IndexSet<Name>, name: &Name) -> bool
    ensures { result ≡ list_any (bytes_eq name.now) taken.now.keys }
{
    taken.contains(name)
}

// A word with ' behind it.
fn with_prime(alloc: Global, word: &Name) -> Result<Name, Memory>
    ensures { IfOk result (λ longer. longer ≡ word.now ++ codes "'") }
{
    let mut longer = Vec::from_slice(alloc, word.bytes())?;
    longer.push(b'\'')?;
    let longer = Name::new(alloc, longer.as_slice())?;
    Ok(longer)
}
