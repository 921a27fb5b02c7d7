ghost use Rattle.std.specs.Prelude.{◌≡◌, [], find, IfOk, None};
ghost use Rattle.std.specs.Option.{option_copied};
ghost use Rattle.larch_base.specs.Answering.{Answers};
ghost use Rattle.larch_flat_meaning.specs.TraitsItemsReferences.{all_same, exact_of, is_meant, only_operator};
ghost use Rattle.larch_flat_meaning.specs.TraitsItemsRefusal.{cause};
ghost use Rattle.larch_base_meaning.specs.Steps.{all_taken, each};
ghost use Rattle.larch_flat_meaning.specs.SortsMeaningRead.{read_term};
ghost use Rattle.larch_flat_meaning.specs.SortsMeaningRefusal.{cause as read_told};
ghost use Rattle.larch_duties_meaning.specs.Implied.{is_among};
ghost use Rattle.larch_duties_meaning.specs.Conversions.{conversion_of, take_converted, take_exempted};

use crate::among::Among;
use crate::standing::has_one_of;
use larch_base::{Code, Memory, Name, Sequence};
use larch_flat_meaning::from_sorts::read_lone;
use larch_flat_meaning::from_sorts_meaning::{ReadRefusal, Scope};
use larch_flat_meaning::from_sorts_signature::Signature;
use larch_flat_meaning::from_traits_items::{TraitRefusal, declare_variables, operator_of};
use larch_raw::{RawConversion, RawEquation, RawOpRef};
use larch_term::{Operator, Operators, Term};
use std::alloc::Global;
use std::marker::Model;

// The converted operators and the exempted terms of a clause `converts`.
pub(crate) struct Conversion {
    pub(crate) converted: Operators,
    pub(crate) exempted: Sequence<Term>,
}

// By a call, so that a proof takes a clause apart in one place alone.
impl Drop for Conversion {
    fn drop(self) {
        let Conversion {
            converted: _converted,
            exempted: _exempted,
        } = self;
    }
}

impl Model for Conversion {
    ghost use Rattle.larch_duties_meaning.specs.Conversions.{Conversion as Read};
    ghost use Rattle.larch_duties.specs.DutiesCode.{coded_conversion};

    ghost Value = { Read };

    ghost coded = { coded_conversion };

    ghost view = { λ c. record { converted = c.converted; exempted = c.exempted } };
}

// The clauses of a trait, or what is wrong with them first.
pub(crate) fn conversions_of(
    alloc: Global,
    signature: &Signature,
    raws: &[RawConversion],
) -> Result<Sequence<Conversion>, TraitRefusal>
    ensures { Answers cause result (each (conversion_of signature.now) raws.now) }
{
    let mut conversions = Sequence::new(alloc);
    for raw in raws {
        let conversion = conversion_of(alloc, signature, raw)?;
        conversions.push(conversion)?;
    }
    Ok(conversions)
}

// A clause, or what is wrong with it first: its operators, then its variables, then its terms.
fn conversion_of(
    alloc: Global,
    signature: &Signature,
    raw: &RawConversion,
) -> Result<Conversion, TraitRefusal>
    ensures { Answers cause result (conversion_of signature.now raw.now) }
{
    let converted = all_converted(alloc, signature.operators(), raw.converted.as_slice())?;
    let scope = declare_variables(alloc, signature, raw.variables.as_slice())?;
    let terms = raw.exempted.as_slice();
    let exempted = all_exempted(alloc, signature, &scope, converted.as_slice(), terms)?;
    Ok(Conversion {
        converted,
        exempted,
    })
}

// The operators of a trait that references name, each once.
fn all_converted(
    alloc: Global,
    own: &[Operator],
    references: &[RawOpRef],
) -> Result<Operators, TraitRefusal>
    ensures { Answers cause result (all_taken (take_converted own.now) references.now []) }
{
    let mut converted = Sequence::new(alloc);
    for reference in references {
        converted = with_converted(alloc, own, reference, converted)?;
    }
    Ok(converted)
}

// With the one operator that a reference names.
fn with_converted(
    alloc: Global,
    own: &[Operator],
    reference: &RawOpRef,
    converted: Operators,
) -> Result<Operators, TraitRefusal>
    ensures { Answers cause result (take_converted own.now reference.now converted) }
{
    let exact = exact_of(alloc, reference)?;
    let Some(operator) = only_operator(own, &exact, &reference.form.name) else {
        return Err(TraitRefusal::Wrong(reference.form.pos, Code::Converted));
    };
    if is_among(converted.as_slice(), operator) {
        return Err(TraitRefusal::Wrong(reference.form.pos, Code::Converted));
    }
    let mut converted = converted;
    let operator = operator.copy()?;
    converted.push(operator)?;
    Ok(converted)
}

// The one operator that a reference with a signature means.
fn exact_of(alloc: Global, reference: &RawOpRef) -> Result<Option<Operator>, Memory>
    ensures { IfOk result (λ exact. exact ≡ exact_of reference.now) }
{
    let Some(sig) = &reference.sig else {
        return Ok(None);
    };
    let operator = operator_of(alloc, sig, &reference.form)?;
    Ok(Some(operator))
}

// The first operator that is meant, if all that are meant are equal to it.
fn only_operator<'a>(
    own: &'a [Operator],
    exact: &Option<Operator>,
    name: &Name,
) -> Option<&'a Operator>
    ensures { option_copied result ≡ only_operator (is_meant exact.now name.now) own.now }
{
    let first = first_meant(own, exact, name)?;
    if are_all_same(own, exact, name, first) {
        return Some(first);
    }
    None
}

// The first operator that is meant.
fn first_meant<'a>(
    own: &'a [Operator],
    exact: &Option<Operator>,
    name: &Name,
) -> Option<&'a Operator>
    ensures { option_copied result ≡ find (is_meant exact.now name.now) own.now }
{
    own.iter().find(|operator| is_meant(operator, exact, name))
}

// Whether all operators that are meant are equal to one.
fn are_all_same(own: &[Operator], exact: &Option<Operator>, name: &Name, first: &Operator) -> bool
    ensures { result ≡ all_same (is_meant exact.now name.now) first.now own.now }
{
    own.iter().all(|operator| !is_meant(operator, exact, name) || *first == *operator)
}

// Whether a reference of this name, or of this one operator, means an operator.
fn is_meant(operator: &Operator, exact: &Option<Operator>, name: &Name) -> bool
    ensures { result ≡ is_meant exact.now name.now operator.now }
{
    let Some(exact) = exact else {
        return *operator.name() == *name;
    };
    *operator == *exact
}

// Whether an operator is one of these.
fn is_among(operators: &[Operator], operator: &Operator) -> bool
    ensures { result ≡ is_among operators.now operator.now }
{
    operators.iter().any(|other| *operator == *other)
}

// The exempted terms of a clause that converts these operators.
fn all_exempted(
    alloc: Global,
    signature: &Signature,
    scope: &Scope,
    converted: &[Operator],
    terms: &[RawEquation],
) -> Result<Sequence<Term>, TraitRefusal>
    ensures { Answers cause result (all_taken (take_exempted signature.now converted.now scope.now) terms.now []) }
{
    let among = Among::of(alloc, converted)?;
    let exempted = exempted_among(alloc, signature, scope, &among, terms)?;
    Ok(exempted)
}

// The same, where these operators are found at once.
fn exempted_among(
    alloc: Global,
    signature: &Signature,
    scope: &Scope,
    among: &Among,
    terms: &[RawEquation],
) -> Result<Sequence<Term>, TraitRefusal>
    ensures { Answers cause result (all_taken (take_exempted signature.now among.now scope.now) terms.now []) }
{
    let mut exempted = Sequence::new(alloc);
    for raw in terms {
        exempted = with_exempted(alloc, signature, scope, among, raw, exempted)?;
    }
    Ok(exempted)
}

// With an exempted term.
fn with_exempted(
    alloc: Global,
    signature: &Signature,
    scope: &Scope,
    converted: &Among,
    raw: &RawEquation,
    exempted: Sequence<Term>,
) -> Result<Sequence<Term>, TraitRefusal>
    ensures { Answers cause result (take_exempted signature.now converted.now scope.now raw.now exempted) }
{
    if raw.right.is_some() {
        return Err(TraitRefusal::Wrong(raw.first, Code::Exempt));
    }
    let term = read(alloc, signature, scope, raw)?;
    if !has_one_of(converted, &term) {
        return Err(TraitRefusal::Wrong(raw.first, Code::Exempt));
    }
    let mut exempted = exempted;
    exempted.push(term)?;
    Ok(exempted)
}

// The term that is read.
fn read(
    alloc: Global,
    signature: &Signature,
    scope: &Scope,
    raw: &RawEquation,
) -> Result<Term, TraitRefusal>
    requires { raw.now.right ≡ None }
    ensures { Answers cause result (read_term signature.now scope.now None raw.now) }
{
    match read_lone(alloc, signature, scope, raw, None) {
        Ok(term) => Ok(term),
        Err(refusal) => Err(refusal_of(refusal)),
    }
}

// What is wrong with a term.
fn refusal_of(refusal: ReadRefusal) -> TraitRefusal
    ensures { cause result ≡ read_told refusal }
{
    match refusal {
        ReadRefusal::UnknownSort(pos) => TraitRefusal::Wrong(pos, Code::UnknownSort),
        ReadRefusal::NoReading(pos) => TraitRefusal::Wrong(pos, Code::NoReading),
        ReadRefusal::Ambiguous(pos) => TraitRefusal::Wrong(pos, Code::Ambiguous),
        ReadRefusal::Memory => TraitRefusal::Memory,
    }
}
