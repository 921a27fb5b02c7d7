ghost use Rattle.std.specs.Prelude.{◌≡◌, ◌++◌, ◌∷◌, [], IfOk};
ghost use Rattle.larch_grammar.specs.Form.{variables_at};
ghost use Rattle.larch_grammar.specs.Machine.{close_conversion, open_conversion, with_clause, with_exempted, with_reference};
ghost use Rattle.larch_grammar.specs.Terms.{equation_of, formula_of};
ghost use Rattle.larch_grammar.specs.Traits.{implying, empty_trait, with_conversion, with_declaration, with_equations, with_item};

use crate::draft::Draft;
use crate::machine::{Clause, OpenConversion};
use larch_base::{Memory, Pos, Sequence};
use larch_raw::{
    RawConversion, RawDecl, RawEquation, RawEquations, RawForm, RawForms, RawItem, RawOpRef,
    RawOpRefs, RawRight, RawTerm, RawTrait, RawVar, RawVars, RawWord, RawWords,
};
use std::alloc::Global;

/// A trait of this name with these formals and nothing in it.
pub fn named(alloc: Global, name: RawWord, formals: RawForms) -> Result<Draft, Memory>
    ensures { IfOk result (λ draft. draft ≡ empty_trait name formals) }
{
    let raw = RawTrait {
        name,
        formals,
        shorthands: Sequence::new(alloc),
        references: Sequence::new(alloc),
        declarations: Sequence::new(alloc),
        items: Sequence::new(alloc),
        implies: false,
        implied: Sequence::new(alloc),
        implied_items: Sequence::new(alloc),
        conversions: Sequence::new(alloc),
    };
    let raw = Box::new(alloc, raw)?;
    Ok(Draft { raw })
}

/// The trait with a declaration more.
pub fn with_declaration(raw: Draft, declaration: RawDecl) -> Result<Draft, Memory>
    ensures { IfOk result (λ more. more ≡ with_declaration raw declaration) }
{
    let mut draft = raw;
    draft.raw.declarations.push(declaration)?;
    Ok(draft)
}

// The trait with an item more: of its implied part where there is one.
fn with_item(raw: Draft, item: RawItem) -> Result<Draft, Memory>
    ensures { IfOk result (λ more. more ≡ with_item raw item) }
{
    let mut draft = raw;
    if draft.raw.implies {
        draft.raw.implied_items.push(item)?;
    } else {
        draft.raw.items.push(item)?;
    }
    Ok(draft)
}

/// The trait with an implied part, of which nothing is read.
pub fn implying(raw: Draft) -> Draft
    ensures { result ≡ implying raw }
{
    let mut draft = raw;
    draft.raw.implies = true;
    draft
}

/// A conversion with nothing exempted yet.
pub fn open_conversion(
    alloc: Global,
    raw: Draft,
    converted: RawOpRefs,
    variables: RawVars,
) -> OpenConversion
    ensures { result ≡ open_conversion raw converted variables [] }
{
    OpenConversion {
        raw,
        converted,
        variables,
        exempted: Sequence::new(alloc),
    }
}

/// The same with a term more that is exempted.
pub fn with_exempted(
    conversion: OpenConversion,
    term: RawEquation,
) -> Result<OpenConversion, Memory>
    ensures { IfOk result (λ more. more ≡ with_exempted conversion term) }
{
    let mut conversion = conversion;
    conversion.exempted.push(term)?;
    Ok(conversion)
}

/// The trait with a conversion more.
pub fn close_conversion(conversion: OpenConversion) -> Result<Draft, Memory>
    ensures { IfOk result (λ raw. raw ≡ close_conversion conversion) }
{
    let OpenConversion {
        raw,
        converted,
        variables,
        exempted,
    } = conversion;
    let mut draft = raw;
    draft.raw.conversions.push(RawConversion {
        converted,
        variables,
        exempted,
    })?;
    Ok(draft)
}

/// The trait with a conversion more, from which nothing is exempted.
pub fn with_converted(alloc: Global, raw: Draft, converted: RawOpRefs) -> Result<Draft, Memory>
    ensures { IfOk result (λ more. more ≡ with_conversion raw converted [] []) }
{
    let conversion = open_conversion(alloc, raw, converted, Sequence::new(alloc));
    close_conversion(conversion)
}

/// The trait with these equations as an item more.
pub fn with_equations(
    raw: Draft,
    variables: RawVars,
    equations: RawEquations,
) -> Result<Draft, Memory>
    ensures { IfOk result (λ more. more ≡ with_equations raw variables equations) }
{
    let raw = with_item(raw, RawItem::Equations(variables, equations))?;
    Ok(raw)
}

/// The same with an equation more.
pub fn with_last(
    raw: Draft,
    variables: RawVars,
    equations: RawEquations,
    equation: RawEquation,
) -> Result<Draft, Memory>
    ensures { IfOk result (λ more. more ≡ with_equations raw variables (equations ++ equation ∷ [])) }
{
    let mut equations = equations;
    equations.push(equation)?;
    let raw = with_equations(raw, variables, equations)?;
    Ok(raw)
}

/// The trait with a clause of these references.
pub fn with_clause(clause: Clause, refs: RawOpRefs) -> Result<Draft, Memory>
    ensures { IfOk result (λ raw. raw ≡ with_clause clause refs) }
{
    let Clause { raw, kind, sort } = clause;
    let raw = with_item(raw, RawItem::Clause(kind, sort, refs))?;
    Ok(raw)
}

/// The references with one more, which is a form alone.
pub fn with_reference(refs: RawOpRefs, form: RawForm) -> Result<RawOpRefs, Memory>
    ensures { IfOk result (λ more. more ≡ with_reference refs form) }
{
    let mut refs = refs;
    refs.push(RawOpRef { form, sig: None })?;
    Ok(refs)
}

/// The words with one more.
pub fn with_word(words: RawWords, word: RawWord) -> Result<RawWords, Memory>
    ensures { IfOk result (λ more. more ≡ words ++ word ∷ []) }
{
    let mut words = words;
    words.push(word)?;
    Ok(words)
}

/// The variables with these names at a sort too.
pub fn with_group(variables: RawVars, names: &RawWords, sort: &RawWord) -> Result<RawVars, Memory>
    ensures { IfOk result (λ more. more ≡ variables ++ variables_at names.now sort.now) }
{
    let mut variables = variables;
    for name in names.as_slice() {
        let name = copy_word(name)?;
        let sort = copy_word(sort)?;
        variables.push(RawVar { name, sort })?;
    }
    Ok(variables)
}

// The same word once more.
pub(crate) fn copy_word(word: &RawWord) -> Result<RawWord, Memory>
    ensures { IfOk result (λ copy. copy ≡ word.now) }
{
    let name = word.name.copy()?;
    Ok(RawWord {
        name,
        pos: word.pos,
    })
}

/// A formula.
pub fn formula_of(left: RawTerm, first: Pos) -> RawEquation
    ensures { result ≡ formula_of left first }
{
    RawEquation {
        left,
        right: None,
        first,
    }
}

/// An equation with two sides, and the position of `==`.
pub fn equation_of(left: RawTerm, pos: Pos, term: RawTerm, first: Pos) -> RawEquation
    ensures { result ≡ equation_of left pos term first }
{
    RawEquation {
        left,
        right: Some(RawRight { term, pos }),
        first,
    }
}
