ghost use Rattle.std.specs.Prelude.{◌≡◌, [], not};
ghost use Rattle.larch_base.specs.Answering.{Answers};
ghost use Rattle.larch_sorts.specs.SortsKnownSorts.{exists_sort};
ghost use Rattle.larch_traits_items.specs.Refusal.{cause};
ghost use Rattle.larch_base_meaning.specs.Steps.{all_taken, first_position};
ghost use Rattle.larch_traits_items.specs.Variables.{variables_declared, with_declared};

use crate::refusal::TraitRefusal;
use larch_base::{Code, Pos};
use larch_raw::RawVar;
use larch_sorts::from_sorts_meaning::Scope;
use larch_sorts::from_sorts_signature::Signature;
use std::alloc::Global;

/// Variables as a scope, in order. `Wrong` has UNKNOWN-SORT at the first sort that doesn't exist, or else
/// VARIABLE-TWICE at the first variable that has the name of an earlier one.
pub fn declare_variables(
    alloc: Global,
    signature: &Signature,
    variables: &[RawVar],
) -> Result<Scope, TraitRefusal>
    ensures { Answers cause result (variables_declared signature.now variables.now) }
{
    if let Some(pos) = unknown_sort(signature, variables) {
        return Err(TraitRefusal::Wrong(pos, Code::UnknownSort));
    }
    scope_of(alloc, variables)
}

// Where the first sort of a variable stands that doesn't exist.
fn unknown_sort(signature: &Signature, variables: &[RawVar]) -> Option<Pos>
    ensures { result ≡ first_position (λ v. not (exists_sort signature.now v.sort.name))
        (λ v. v.sort.pos) variables.now }
{
    for variable in variables {
        if !signature.knows(&variable.sort.name) {
            return Some(variable.sort.pos);
        }
    }
    None
}

// Variables as a scope, if none has the name of an earlier one.
fn scope_of(alloc: Global, variables: &[RawVar]) -> Result<Scope, TraitRefusal>
    ensures { Answers cause result (all_taken with_declared variables.now []) }
{
    let mut scope = Scope::new(alloc);
    for variable in variables {
        let name = variable.name.name.copy()?;
        let sort = variable.sort.name.copy()?;
        if !scope.insert(name, sort)? {
            return Err(TraitRefusal::Wrong(variable.name.pos, Code::VariableTwice));
        }
    }
    Ok(scope)
}
