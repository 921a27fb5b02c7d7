ghost use Rattle.std.specs.Prelude.{◌≡◌, ◌++◌, ◌∷◌, [], false, bytes_eq, IfOk, find, option_map, Ok};
ghost use Rattle.std.specs.List.{list_any};
ghost use Rattle.larch_base.specs.Answering.{Answers};
ghost use Rattle.larch_base.specs.declared.code.Code.TheVariants.{FieldTwice};
ghost use Rattle.larch_traits_items.specs.SortsMeaningFaults.{fault_at, unless};
ghost use Rattle.larch_shorthand.specs.Shorthand.{expand, expand_operators, field_twice, names_in, names_truth};
ghost use Rattle.larch_shorthand.specs.Shorthand.{truth_among, twice, wrong_elements, wrong_in};
ghost use Rattle.larch_shorthand.specs.Refusal.{cause};

use crate::enumeration::{enumeration, enumeration_operators};
use crate::expansion::Expansion;
use crate::refusal::ExpandRefusal;
use crate::tuple::{tuple, tuple_operators};
use crate::union_::{union_, union_operators};
use indexmap::IndexSet;
use larch_base::{Memory, Name, Pos, Sequence};
use larch_term::{Operators, Sort};
use larch_traits_items::from_raw::{RawField, RawShorthand, RawWord};
use std::alloc::Global;

/// What a shorthand stands for: its operators, and what is stated of them, each in order. `FieldTwice` stands at the
/// first element or field that has the name of one before it; or else `BuiltIn` at the first element of an enumeration
/// of Bool that is named `true` or `false`. It takes as long as what it makes is large: an enumeration of n elements
/// states n(n-1)/2 inequalities, and a tuple of n fields has about 2n² nodes.
pub fn expand(alloc: Global, shorthand: &RawShorthand) -> Result<Expansion, ExpandRefusal>
    ensures { Answers cause result (expand shorthand.now) }
{
    check(alloc, shorthand)?;
    match shorthand {
        RawShorthand::Enumeration(sort, words) => {
            let names = names_in(alloc, words.as_slice())?;
            let expansion = enumeration(alloc, &sort.name, names.as_slice())?;
            Ok(expansion)
        }
        RawShorthand::Tuple(sort, fields) => {
            let expansion = tuple(alloc, &sort.name, fields.as_slice())?;
            Ok(expansion)
        }
        RawShorthand::Union(sort, fields) => {
            let expansion = union_(alloc, &sort.name, fields.as_slice())?;
            Ok(expansion)
        }
    }
}

/// The operators that a shorthand stands for, with the refusals of `expand`. It takes as long as they and the
/// shorthand are large.
pub fn expand_operators(alloc: Global, shorthand: &RawShorthand) -> Result<Operators, ExpandRefusal>
    ensures { Answers cause result (expand_operators shorthand.now) }
{
    check(alloc, shorthand)?;
    match shorthand {
        RawShorthand::Enumeration(sort, words) => {
            let names = names_in(alloc, words.as_slice())?;
            let operators = enumeration_operators(alloc, &sort.name, names.as_slice())?;
            Ok(operators)
        }
        RawShorthand::Tuple(sort, fields) => {
            let operators = tuple_operators(alloc, &sort.name, fields.as_slice())?;
            Ok(operators)
        }
        RawShorthand::Union(sort, fields) => {
            let operators = union_operators(alloc, &sort.name, fields.as_slice())?;
            Ok(operators)
        }
    }
}

// Answers where nothing is wrong with a shorthand.
fn check(alloc: Global, shorthand: &RawShorthand) -> Result<(), ExpandRefusal>
    ensures { Answers cause result (unless (wrong_in shorthand.now) (Ok tt)) }
{
    match shorthand {
        RawShorthand::Enumeration(sort, words) => check_elements(
            alloc,
            &sort.name,
            words.as_slice(),
        ),
        RawShorthand::Tuple(_, fields) => check_fields(alloc, fields.as_slice()),
        RawShorthand::Union(_, fields) => check_fields(alloc, fields.as_slice()),
    }
}

// Answers where nothing is wrong with words as elements of a sort.
fn check_elements(alloc: Global, sort: &Sort, words: &[RawWord]) -> Result<(), ExpandRefusal>
    ensures { Answers cause result (unless (wrong_elements sort.now words.now) (Ok tt)) }
{
    if let Some(pos) = element_twice(alloc, words)? {
        return Err(ExpandRefusal::FieldTwice(pos));
    }
    if let Some(pos) = truth_among(sort, words) {
        return Err(ExpandRefusal::BuiltIn(pos));
    }
    Ok(())
}

// Answers where no field has the name of one before it.
fn check_fields(alloc: Global, fields: &[RawField]) -> Result<(), ExpandRefusal>
    ensures { Answers cause result (unless (fault_at FieldTwice (field_twice fields.now)) (Ok tt)) }
{
    if let Some(pos) = field_twice(alloc, fields)? {
        return Err(ExpandRefusal::FieldTwice(pos));
    }
    Ok(())
}

// Where the first word stands that has the name of one before it.
fn element_twice(alloc: Global, words: &[RawWord]) -> Result<Option<Pos>, Memory>
    ensures { IfOk result (λ pos. pos ≡ twice [] words.now) }
{
    let mut names = IndexSet::new(alloc);
    for word in words {
        if is_taken(&mut names, &word.name)? {
            return Ok(Some(word.pos));
        }
    }
    Ok(None)
}

// Where the first field stands that has the name of one before it.
fn field_twice(alloc: Global, fields: &[RawField]) -> Result<Option<Pos>, Memory>
    ensures { IfOk result (λ pos. pos ≡ field_twice fields.now) }
{
    let mut names = IndexSet::new(alloc);
    for field in fields {
        if is_taken(&mut names, &field.name.name)? {
            return Ok(Some(field.name.pos));
        }
    }
    Ok(None)
}

// Whether a name is there; else it is put behind the others.
fn is_taken(names: &mut IndexSet<Name>, name: &Name) -> Result<bool, Memory>
    ensures told { IfOk result (λ taken. taken ≡ list_any (bytes_eq name.now) names.old.keys) }
    ensures put { IfOk result (λ taken. taken ≡ false → names.new.keys ≡ names.old.keys ++ name.now ∷ []) }
{
    if names.contains(name) {
        return Ok(true);
    }
    let name = name.copy()?;
    names.insert(name)?;
    Ok(false)
}

// Where the first element of a sort stands that would be a truth value.
fn truth_among(sort: &Sort, words: &[RawWord]) -> Option<Pos>
    ensures { result ≡ truth_among sort.now words.now }
{
    if sort.bytes() != b"Bool".as_slice() {
        return None;
    }
    first_truth(words)
}

// Where the first word stands that is the name of a truth value.
fn first_truth(words: &[RawWord]) -> Option<Pos>
    ensures { result ≡ option_map (λ w. w.pos) (find names_truth words.now) }
{
    for word in words {
        if names_truth(word) {
            return Some(word.pos);
        }
    }
    None
}

// Whether a word is the name of a truth value.
fn names_truth(word: &RawWord) -> bool
    ensures { result ≡ names_truth word.now }
{
    word.name.bytes() == b"true".as_slice() || word.name.bytes() == b"false".as_slice()
}

// The names of words.
fn names_in(alloc: Global, words: &[RawWord]) -> Result<Sequence<Name>, Memory>
    ensures { IfOk result (λ names. names ≡ names_in words.now) }
{
    let mut names = Sequence::new(alloc);
    for word in words {
        let name = word.name.copy()?;
        names.push(name)?;
    }
    Ok(names)
}
