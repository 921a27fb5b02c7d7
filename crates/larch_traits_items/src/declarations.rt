ghost use Rattle.std.specs.Prelude.{◌≡◌, not, map, IfOk};
ghost use Rattle.larch_base.specs.Answering.{Answers};
ghost use Rattle.larch_traits_items.specs.Declarations.{declared_operators, declared_by, fits, operator_of, own_operator};
ghost use Rattle.larch_traits_items.specs.Refusal.{cause};
ghost use Rattle.larch_base_meaning.specs.Steps.{each, first_position};

use crate::append::append;
use crate::refusal::TraitRefusal;
use larch_base::{Code, Memory, Pos, Sequence};
use larch_raw::{RawDecl, RawForm, RawSig, RawWord};
use larch_term::{Operator, Operators, Sorts, is_built_in};
use std::alloc::Global;

/// The operators of declarations, in order. `Wrong` has ARITY at a form whose markers don't fit the domain, or else
/// BUILT-IN at a form that makes a built-in operator; the first declaration with either decides.
pub fn declare(alloc: Global, decls: &[RawDecl]) -> Result<Operators, TraitRefusal>
    ensures { Answers cause result (declared_operators decls.now) }
{
    let mut operators = Sequence::new(alloc);
    for decl in decls {
        let more = declare_forms(alloc, decl)?;
        operators = append(operators, more)?;
    }
    Ok(operators)
}

// The operators of a declaration.
fn declare_forms(alloc: Global, decl: &RawDecl) -> Result<Operators, TraitRefusal>
    ensures { Answers cause result (declared_by decl.now) }
{
    if let Some(pos) = unfit_form(&decl.sig, decl.forms.as_slice()) {
        return Err(TraitRefusal::Wrong(pos, Code::Arity));
    }
    own_operators(alloc, &decl.sig, decl.forms.as_slice())
}

// Where the first form stands whose markers don't fit the domain.
fn unfit_form(sig: &RawSig, forms: &[RawForm]) -> Option<Pos>
    ensures { result ≡ first_position (λ form. not (fits sig.now form)) (λ form. form.pos) forms.now }
{
    for form in forms {
        if !fits(sig, form) {
            return Some(form.pos);
        }
    }
    None
}

// Whether a form's markers fit the domain.
fn fits(sig: &RawSig, form: &RawForm) -> bool
    ensures { result ≡ fits sig.now form.now }
{
    form.word || form.markers as usize == sig.domain.as_slice().len()
}

// The operators of forms with a signature, unless one is a built-in one.
fn own_operators(alloc: Global, sig: &RawSig, forms: &[RawForm]) -> Result<Operators, TraitRefusal>
    ensures { Answers cause result (each (own_operator sig.now) forms.now) }
{
    let mut operators = Sequence::new(alloc);
    for form in forms {
        let operator = own_operator(alloc, sig, form)?;
        operators.push(operator)?;
    }
    Ok(operators)
}

// The operator of a form with a signature, unless it is a built-in one.
fn own_operator(alloc: Global, sig: &RawSig, form: &RawForm) -> Result<Operator, TraitRefusal>
    ensures { Answers cause result (own_operator sig.now form.now) }
{
    let operator = operator_of(alloc, sig, form)?;
    if is_built_in(&operator) {
        return Err(TraitRefusal::Wrong(form.pos, Code::BuiltIn));
    }
    Ok(operator)
}

/// The operator of a form with a signature.
pub fn operator_of(alloc: Global, sig: &RawSig, form: &RawForm) -> Result<Operator, Memory>
    ensures { IfOk result (λ operator. operator ≡ operator_of sig.now form.now) }
{
    let name = form.name.copy()?;
    let domain = sorts_of(alloc, sig.domain.as_slice())?;
    let range = sig.range.name.copy()?;
    let operator = Operator::new(alloc, name, domain, range)?;
    Ok(operator)
}

// The sorts that words name.
fn sorts_of(alloc: Global, words: &[RawWord]) -> Result<Sorts, Memory>
    ensures { IfOk result (λ sorts. sorts ≡ map (λ w. w.name) words.now) }
{
    let mut sorts = Sequence::new(alloc);
    for word in words {
        let sort = word.name.copy()?;
        sorts.push(sort)?;
    }
    Ok(sorts)
}
