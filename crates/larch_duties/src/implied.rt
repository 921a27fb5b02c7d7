ghost use Rattle.std.specs.Prelude.{◌≡◌, [], ◌++◌, length, map, not, IfOk};
ghost use Rattle.std.specs.List.{list_all};
ghost use Rattle.larch_base.specs.Answering.{Answers};
ghost use Rattle.larch_flat_meaning.specs.TraitsItemsRefusal.{cause};
ghost use Rattle.larch_base_meaning.specs.Steps.{all_behind, all_taken};
ghost use Rattle.larch_duties_meaning.specs.Implied.{implied_statements, is_among};
ghost use Rattle.larch_flat.specs.FlatSourcesSources.{files_in};
ghost use Rattle.larch_flat.specs.Known.{AreAllKnown, Knows, stop_told};
ghost use Rattle.larch_duties.specs.Steps.{new_in, reference_implies, renamed_in, trait_implies};
ghost use Rattle.larch_duties.specs.TraitDuties.{flat_with};

use crate::among::Among;
use crate::known::{known_of, marked_at};
use larch_base::{Code, Memory, Sequence};
use larch_flat::FlatTraits;
use larch_flat::from_flat_gathering::Flat;
use larch_flat::from_flat_replacing::{NewNames, replacements_of};
use larch_flat::from_flat_sources::Sources;
use larch_flat::from_flat_statements::{MarkedStatements, new_among};
use larch_flat_meaning::from_sorts_signature::Signature;
use larch_flat_meaning::from_traits_items::{TraitRefusal, state_items};
use larch_raw::{RawRef, RawTrait};
use larch_term::{Operator, Statements};
use std::alloc::Global;

// A trait: its text, with what its flat trait gathers.
#[derive(Drop)]
struct Flattened<'a> {
    text: &'a RawTrait,
    flat: &'a Flat,
}

// What a trait implies: by its references, then by its items; or what is wrong first.
pub(crate) fn implied<'a>(
    alloc: Global,
    sources: &Sources,
    flat_traits: &FlatTraits,
    flat: &'a Flat,
    raw: &'a RawTrait,
    signature: &Signature,
) -> Result<Statements, TraitRefusal>
    requires known { Knows sources.now flat_traits.now }
    requires all { AreAllKnown sources.now flat_traits.now }
    requires signature { signature.now ≡ flat.now.operators }
    ensures { Answers stop_told result
        (implied_statements (length sources.now) (files_in sources.now) (flat_with raw.now flat.now)) }
{
    let references = raw.implied.as_slice();
    let own = Flattened { text: raw, flat };
    let statements = by_references(alloc, sources, flat_traits, &own, references)?;
    let more = state_items(alloc, signature, raw.implied_items.as_slice())?;
    let all = join_statements(statements, more)?;
    Ok(all)
}

// Statements with others behind them.
pub(crate) fn join_statements(
    statements: Statements,
    more: Statements,
) -> Result<Statements, Memory>
    ensures { IfOk result (λ all. all ≡ statements ++ more) }
{
    let mut all = statements.into_vec();
    let mut more = more.into_vec();
    all.append(&mut more)?;
    Ok(Sequence::from_vec(all))
}

// What a trait implies by references, in order.
fn by_references(
    alloc: Global,
    sources: &Sources,
    flat_traits: &FlatTraits,
    own: &Flattened<'_>,
    references: &[RawRef],
) -> Result<Statements, TraitRefusal>
    requires known { Knows sources.now flat_traits.now }
    requires all { AreAllKnown sources.now flat_traits.now }
    ensures { Answers stop_told result (all_taken (λ ref. all_behind (reference_implies sources.now
        (flat_with own.now.text.now own.now.flat.now) ref)) references.now []) }
{
    let ours = own.flat;
    let among = Among::of(alloc, ours.operators.as_slice())?;
    let mut statements = Sequence::new(alloc);
    for reference in references {
        let more = by_reference(alloc, sources, flat_traits, own, &among, reference)?;
        statements = join_statements(statements, more)?;
    }
    Ok(statements)
}

// What a trait implies by a reference, with its own operators to be found at once.
fn by_reference<'a>(
    alloc: Global,
    sources: &'a Sources,
    flat_traits: &'a FlatTraits,
    own: &Flattened<'_>,
    among: &Among,
    reference: &RawRef,
) -> Result<Statements, TraitRefusal>
    requires known { Knows sources.now flat_traits.now }
    requires all { AreAllKnown sources.now flat_traits.now }
    requires own { among.now ≡ own.now.flat.now.operators }
    ensures { Answers stop_told result
        (reference_implies sources.now (flat_with own.now.text.now own.now.flat.now) reference.now) }
{
    let name = &reference.name;
    let Some(found) = sources.number_of(&name.name) else {
        return Err(TraitRefusal::Wrong(name.pos, Code::UnknownTrait));
    };
    match known_of(flat_traits, found) {
        Ok(flat) => match sources.text(found) {
            Ok(text) => by_trait(alloc, own, among, &Flattened { text, flat }, reference),
            Err(_) => Err(TraitRefusal::Wrong(name.pos, Code::BadReference)),
        },
        Err(_) => Err(TraitRefusal::Wrong(name.pos, Code::BadReference)),
    }
}

// What a trait implies by a reference to another one.
fn by_trait(
    alloc: Global,
    own: &Flattened<'_>,
    among: &Among,
    other: &Flattened<'_>,
    reference: &RawRef,
) -> Result<Statements, TraitRefusal>
    requires own { among.now ≡ own.now.flat.now.operators }
    ensures { Answers cause result (trait_implies (flat_with own.now.text.now own.now.flat.now) reference.now
        (flat_with other.now.text.now other.now.flat.now)) }
{
    let ours = own.flat;
    let theirs = other.flat;
    let operators = theirs.operators.as_slice();
    let by = replacements_of(alloc, operators, other.text.formals.as_slice(), reference)?;
    let names = NewNames::new(alloc, by, operators)?;
    let operators = names.operators(alloc, operators)?;
    if lacks_one(among, operators.as_slice()) {
        return Err(TraitRefusal::Wrong(reference.name.pos, Code::ImpliedOperator));
    }
    let statements = new_statements(alloc, &ours.marked, &names, &theirs.marked)?;
    Ok(statements)
}

// Whether one of some operators is none of a trait's own.
fn lacks_one(own: &Among, operators: &[Operator]) -> bool
    ensures { result ≡ not (list_all (is_among own.now) operators.now) }
{
    !are_among(own, operators)
}

// Whether each of some operators is one of a trait's own.
fn are_among(own: &Among, operators: &[Operator]) -> bool
    ensures { result ≡ list_all (is_among own.now) operators.now }
{
    operators.iter().all(|operator| own.has(operator))
}

// The statements of another trait by other names, each where it occurs first, without those that are the trait's own.
fn new_statements(
    alloc: Global,
    own: &MarkedStatements,
    names: &NewNames,
    marked: &MarkedStatements,
) -> Result<Statements, Memory>
    ensures { IfOk result (λ new. new ≡ new_in own.now names.now marked.now) }
{
    let renamed = renamed(alloc, names, marked)?;
    let new = new_among(alloc, own, renamed)?;
    Ok(new)
}

// The statements of a trait by other names, in order.
fn renamed(alloc: Global, names: &NewNames, marked: &MarkedStatements) -> Result<Statements, Memory>
    ensures { IfOk result (λ renamed. renamed ≡ renamed_in names.now marked.now) }
{
    let mut renamed = Sequence::new(alloc);
    for index in 0..marked.len() {
        let (statement, _) = marked_at(marked, index);
        let statement = names.rename_statement(alloc, statement)?;
        renamed.push(statement)?;
    }
    Ok(renamed)
}
