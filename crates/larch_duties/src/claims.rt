ghost use Rattle.std.specs.Prelude.{◌≡◌, ◌<◌, ◌++◌, ◌∷◌, [], find, length, map, IfOk, None, OnOk, Some};
ghost use Rattle.std.specs.Option.{option_copied};
ghost use Rattle.larch_base.specs.Answering.{Answers};
ghost use Rattle.larch_base.specs.declared.label.Label.TheVariants.{Assume, Imply, Convert};
ghost use Rattle.larch_duties_meaning.specs.Claims.{claim_of, claims_in, clause_claims, place_of, same_label};
ghost use Rattle.larch_duties_meaning.specs.Conversions.{clause_over, clause_theory};
ghost use Rattle.larch_duties_meaning.specs.Duties.{clause_duties, is_its_copy, label_all};
ghost use Rattle.larch_flat.specs.FlatSourcesSources.{name_at};
ghost use Rattle.larch_flat.specs.Known.{AreAllKnown, Knows, stop_told};
ghost use Rattle.larch_duties.specs.Kept.{duties_in, theory_in};
ghost use Rattle.larch_duties.specs.Labelling.{claims_from};
ghost use Rattle.larch_duties.specs.TraitDuties.{trait_claims};

use crate::clause::{Copied, clause_over, is_its_copy};
use crate::conversion::Conversion;
use crate::finding::{label_behind, number_behind};
use crate::theories::{clause_theory, theory_of};
use crate::trait_duties::{Duties, duties_of};
use larch_base::{Label, Memory, Sequence};
use larch_flat::FlatTraits;
use larch_flat::from_flat_gathering::Flat;
use larch_flat::from_flat_sources::Sources;
use larch_flat_meaning::from_traits_items::TraitRefusal;
use larch_term::{Statement, Statements, Theory, copy_statements};
use std::alloc::Global;
use std::marker::Model;
use std::rc::Rc;

/// A duty of a trait as it is kept, with the number of its clause `converts` where it is one's. Duties of one theory
/// share it. Contracts see a duty as `larch_duties_meaning` defines it.
pub struct Claim {
    pub label: Label,
    pub clause: Option<u32>,
    pub theory: Rc<Theory>,
    pub statement: Statement,
}

/// The duties of a trait, in order, kept apart from its flat trait.
pub type Claims = Sequence<Claim>;

// By a call, so that a proof takes a duty apart in one place alone.
impl Drop for Claim {
    fn drop(self) {
        let Claim {
            label: _label,
            clause: _clause,
            theory: _theory,
            statement: _statement,
        } = self;
    }
}

impl Model for Claim {
    ghost use Rattle.larch_duties_meaning.specs.Claims.{Claim as Numbered};
    ghost use Rattle.larch_duties.specs.DutiesCode.{coded_claim};

    ghost Value = { Numbered };

    ghost coded = { coded_claim };

    ghost view = { λ c.
        record { label = c.label; clause = c.clause; theory = c.theory.value; statement = c.statement } };
}

/// The duties of the trait of the file with a number, where all flat traits are known, to be kept. The trait's theory
/// is made once, and that of each clause once. `Wrong` has what is wrong first, as `duties_of` tells it.
pub fn trait_claims(
    alloc: Global,
    sources: &Sources,
    flat_traits: &FlatTraits,
    number: usize,
) -> Result<Claims, TraitRefusal>
    requires number { number < length sources.now }
    requires known { Knows sources.now flat_traits.now }
    requires all { AreAllKnown sources.now flat_traits.now }
    ensures { Answers stop_told result (trait_claims sources.now (name_at sources.now number)) }
{
    let duties = duties_of(alloc, sources, flat_traits, number)?;
    Ok(claims_in(alloc, &duties)?)
}

/// The duties, each with the number of its clause, to be kept apart from the flat trait. The trait's theory is made
/// once, and that of each clause once.
pub fn claims_in(alloc: Global, duties: &Duties) -> Result<Claims, Memory>
    ensures { IfOk result (λ claims. claims ≡ claims_in duties.now) }
{
    let implied = duties.implied.as_slice();
    let conversions = duties.conversions.as_slice();
    all_claims(alloc, duties.flat, implied, conversions)
}

/// The first of some duties that has a label. `None` exactly where none has it. It takes no memory.
pub fn find_claim(claims: &[Claim], label: Label) -> Option<&Claim>
    ensures { option_copied result ≡ find (λ c. same_label label c.label) claims.now }
{
    claims.iter().find(|claim| same_label(label, claim.label))
}

/// The place of the first of some duties that has a label. `None` exactly where none has it. It takes no memory.
pub fn place_of(claims: &[Claim], label: Label) -> Option<usize>
    ensures { result ≡ place_of label claims.now }
{
    claims
        .iter()
        .position(|claim| same_label(label, claim.label))
}

// Whether two labels are one.
fn same_label(one: Label, other: Label) -> bool
    ensures { result ≡ same_label one other }
{
    match (one, other) {
        (Label::Assume(number), Label::Assume(second)) => number == second,
        (Label::Imply(number), Label::Imply(second)) => number == second,
        (Label::Convert(number), Label::Convert(second)) => number == second,
        _ => false,
    }
}

// The duties of a flat trait that implies these statements and has these clauses.
fn all_claims(
    alloc: Global,
    flat: &Flat,
    implied: &[Statement],
    conversions: &[Conversion],
) -> Result<Claims, Memory>
    ensures { IfOk result (λ claims. claims ≡ claims_in (duties_in flat.now implied.now conversions.now)) }
{
    let mut claims = Sequence::new(alloc);
    put_own(alloc, &mut claims, flat, implied)?;
    put_clauses(alloc, &mut claims, flat, conversions)?;
    Ok(claims)
}

// Puts the duties of a trait's own theory behind others.
fn put_own(
    alloc: Global,
    claims: &mut Claims,
    flat: &Flat,
    implied: &[Statement],
) -> Result<(), Memory>
    ensures { OnOk result (claims.new ≡ claims.old ++ map (claim_of None) (label_all Assume 1 (theory_in flat.now)
        flat.now.discharge ++ label_all Imply 1 (theory_in flat.now) implied.now)) }
{
    let theory = shared_theory(alloc, flat)?;
    put_kind(
        alloc,
        claims,
        Label::Assume(1),
        &theory,
        flat.discharge.as_slice(),
    )?;
    put_kind(alloc, claims, Label::Imply(1), &theory, implied)?;
    Ok(())
}

// The theory of a flat trait, to be shared.
fn shared_theory(alloc: Global, flat: &Flat) -> Result<Rc<Theory>, Memory>
    ensures { IfOk result (λ theory. theory.value ≡ theory_in flat.now) }
{
    let theory = theory_of(alloc, flat)?;
    Ok(Rc::new(alloc, theory)?)
}

// Puts duties of a trait's own theory behind others, with these statements and labels of one kind from this one on.
fn put_kind(
    alloc: Global,
    claims: &mut Claims,
    first: Label,
    theory: &Rc<Theory>,
    statements: &[Statement],
) -> Result<(), Memory>
    ensures { OnOk result (claims.new ≡ claims.old ++ claims_from first None theory.now.value statements.now) }
{
    let statements = copy_statements(alloc, statements)?;
    put_all(claims, first, None, theory, statements)
}

// Puts the duties of clauses, which have numbers from 1 on, behind others.
fn put_clauses(
    alloc: Global,
    claims: &mut Claims,
    flat: &Flat,
    conversions: &[Conversion],
) -> Result<(), Memory>
    ensures { OnOk result (claims.new ≡ claims.old ++ clause_claims 1
        (clause_duties 1 (theory_in flat.now) (map (clause_over (theory_in flat.now)) conversions.now))) }
{
    let mut first: u32 = 1;
    let mut number: u32 = 1;
    for conversion in conversions {
        put_clause(alloc, claims, flat, conversion, first, number)?;
        first = number_behind(first, conversion.converted.as_slice().len())?;
        number = number_behind(number, 1)?;
    }
    Ok(())
}

// Puts the duties of the clause with a number behind others; their labels have numbers from the first on.
fn put_clause(
    alloc: Global,
    claims: &mut Claims,
    flat: &Flat,
    conversion: &Conversion,
    first: u32,
    number: u32,
) -> Result<(), Memory>
    ensures { OnOk result (claims.new ≡ claims.old ++ claims_from (Convert first) (Some number)
        (clause_theory (theory_in flat.now) (clause_over (theory_in flat.now) conversion.now))
        (map is_its_copy (clause_over (theory_in flat.now) conversion.now).copies)) }
{
    let clause = clause_over(alloc, flat, conversion)?;
    let statements = are_their_copies(alloc, clause.copies.as_slice())?;
    let theory = clause_theory(alloc, flat, clause)?;
    let theory = Rc::new(alloc, theory)?;
    put_all(
        claims,
        Label::Convert(first),
        Some(number),
        &theory,
        statements,
    )
}

// That each of some operators is its copy.
fn are_their_copies(alloc: Global, copies: &[Copied]) -> Result<Statements, Memory>
    ensures { IfOk result (λ statements. statements ≡ map is_its_copy copies.now) }
{
    let mut statements = Sequence::new(alloc);
    for copied in copies {
        let statement = is_its_copy(alloc, copied)?;
        statements.push(statement)?;
    }
    Ok(statements)
}

// Puts duties over one theory behind others, of a clause or of none, with labels of one kind from this one on.
fn put_all(
    claims: &mut Claims,
    first: Label,
    clause: Option<u32>,
    theory: &Rc<Theory>,
    statements: Statements,
) -> Result<(), Memory>
    ensures { OnOk result (claims.new ≡ claims.old ++ claims_from first clause theory.now.value statements) }
{
    let mut label = first;
    for statement in statements.into_vec() {
        put(claims, label, clause, theory, statement)?;
        label = label_behind(label)?;
    }
    Ok(())
}

// Puts a duty behind others.
fn put(
    claims: &mut Claims,
    label: Label,
    clause: Option<u32>,
    theory: &Rc<Theory>,
    statement: Statement,
) -> Result<(), Memory>
    ensures { OnOk result (claims.new ≡ claims.old
        ++ record { label = label; clause = clause; theory = theory.now.value; statement = statement } ∷ []) }
{
    let theory = theory.clone()?;
    claims.push(Claim {
        label,
        clause,
        theory,
        statement,
    })
}
