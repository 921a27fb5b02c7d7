ghost use Rattle.std.specs.Prelude.{◌≡◌, ◌++◌, ◌∷◌, [], IfOk};
ghost use Rattle.larch_grammar.specs.Composition.{close_fields, close_ref, fields_at, next_kind, open_fields, open_ref, shorthand_of, with_actual, with_fields, with_ref, with_shorthand};

use crate::draft::Draft;
use crate::machine::{FieldsKind, OpenFields, OpenRef, RefKind};
use crate::traits::copy_word;
use larch_base::{Memory, Sequence};
use larch_raw::{
    RawActual, RawField, RawFields, RawRef, RawReference, RawShorthand, RawWord, RawWords,
};
use std::alloc::Global;

/// The trait with a shorthand more.
pub fn with_shorthand(raw: Draft, shorthand: RawShorthand) -> Result<Draft, Memory>
    ensures { IfOk result (λ more. more ≡ with_shorthand raw shorthand) }
{
    let mut draft = raw;
    draft.raw.shorthands.push(shorthand)?;
    Ok(draft)
}

/// A tuple or a union with no fields yet.
pub fn open_fields(alloc: Global, raw: Draft, kind: FieldsKind, sort: RawWord) -> OpenFields
    ensures { result ≡ open_fields raw kind sort [] }
{
    OpenFields {
        raw,
        kind,
        sort,
        fields: Sequence::new(alloc),
    }
}

/// The same with the fields of these names at a sort too.
pub fn with_fields(
    shorthand: OpenFields,
    names: &RawWords,
    sort: &RawWord,
) -> Result<OpenFields, Memory>
    ensures { IfOk result (λ more. more ≡ with_fields shorthand (fields_at names.now sort.now)) }
{
    let OpenFields {
        raw,
        kind,
        sort: own,
        fields,
    } = shorthand;
    let fields = more_fields(fields, names, sort)?;
    Ok(OpenFields {
        raw,
        kind,
        sort: own,
        fields,
    })
}

// The fields with those of these names at a sort.
fn more_fields(fields: RawFields, names: &RawWords, sort: &RawWord) -> Result<RawFields, Memory>
    ensures { IfOk result (λ more. more ≡ fields ++ fields_at names.now sort.now) }
{
    let mut fields = fields;
    for name in names.as_slice() {
        let name = copy_word(name)?;
        let sort = copy_word(sort)?;
        fields.push(RawField { name, sort })?;
    }
    Ok(fields)
}

// A tuple or a union.
fn shorthand_of(kind: FieldsKind, sort: RawWord, fields: RawFields) -> RawShorthand
    ensures { result ≡ shorthand_of kind sort fields }
{
    match kind {
        FieldsKind::Tuple => RawShorthand::Tuple(sort, fields),
        FieldsKind::Union => RawShorthand::Union(sort, fields),
    }
}

/// The trait with a tuple or a union more.
pub fn close_fields(shorthand: OpenFields) -> Result<Draft, Memory>
    ensures { IfOk result (λ raw. raw ≡ close_fields shorthand) }
{
    let OpenFields {
        raw,
        kind,
        sort,
        fields,
    } = shorthand;
    let raw = with_shorthand(raw, shorthand_of(kind, sort, fields))?;
    Ok(raw)
}

/// What the reference behind a `,` is for.
pub fn next_kind(kind: RefKind) -> RefKind
    ensures { result ≡ next_kind kind }
{
    match kind {
        RefKind::First => RefKind::Further,
        _ => kind,
    }
}

/// A reference with no actuals yet.
pub fn open_ref(alloc: Global, raw: Draft, kind: RefKind, name: RawWord) -> OpenRef
    ensures { result ≡ open_ref raw kind name [] }
{
    OpenRef {
        raw,
        kind,
        name,
        actuals: Sequence::new(alloc),
    }
}

/// The same with an actual more.
pub fn with_actual(reference: OpenRef, actual: RawActual) -> Result<OpenRef, Memory>
    ensures { IfOk result (λ more. more ≡ with_actual reference actual) }
{
    let mut reference = reference;
    reference.actuals.push(actual)?;
    Ok(reference)
}

/// The trait with a reference more.
pub fn close_ref(reference: OpenRef) -> Result<Draft, Memory>
    ensures { IfOk result (λ raw. raw ≡ close_ref reference) }
{
    let OpenRef {
        raw,
        kind,
        name,
        actuals,
    } = reference;
    let raw = with_ref(raw, kind, RawRef { name, actuals })?;
    Ok(raw)
}

// The same, of a reference that is for this.
fn with_ref(raw: Draft, kind: RefKind, target: RawRef) -> Result<Draft, Memory>
    ensures { IfOk result (λ more. more ≡ with_ref raw kind target) }
{
    match kind {
        RefKind::Included => with_reference(raw, false, target),
        RefKind::Assumed => with_reference(raw, true, target),
        RefKind::First | RefKind::Further => with_implied(raw, target),
    }
}

// The trait with a reference more that is included or assumed.
fn with_reference(raw: Draft, assumed: bool, target: RawRef) -> Result<Draft, Memory>
    ensures { IfOk result (λ more. more ≡ record raw {
      references = raw.references ++ record { assumed = assumed; target = target } ∷ [];
    }) }
{
    let mut draft = raw;
    draft.raw.references.push(RawReference { assumed, target })?;
    Ok(draft)
}

// The trait with a reference more that is implied.
fn with_implied(raw: Draft, target: RawRef) -> Result<Draft, Memory>
    ensures { IfOk result (λ more. more ≡ record raw { implied = raw.implied ++ target ∷ [] }) }
{
    let mut draft = raw;
    draft.raw.implied.push(target)?;
    Ok(draft)
}
