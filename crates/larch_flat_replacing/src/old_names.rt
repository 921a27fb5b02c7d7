ghost use Rattle.std.specs.Prelude.{◌≡◌, ◌++◌, filter, IfOk, OnOk};
ghost use Rattle.std.specs.Option.{option_copied};
ghost use Rattle.larch_flat_meaning.specs.TraitsItemsReferences.{is_meant};
ghost use Rattle.larch_flat_meaning.specs.Replacements.{exactly, names_sort, with_truth_values};
ghost use Rattle.larch_flat_replacing.specs.Kept.{both_truth_values};

use larch_base::{Memory, Name, Sequence};
use larch_flat_meaning::from_sorts_known::{SortSet, existing_sorts};
use larch_flat_meaning::from_traits_items::operator_of;
use larch_raw::{RawForm, RawSig};
use larch_term::{BuiltIn, Operator, Operators, bool_sort};
use std::alloc::Global;
use std::marker::Model;

/// What old names are looked for among: the operators of a trait, their sorts, and the truth values. Contracts see the
/// operators of the trait.
pub(crate) struct OldNames<'a> {
    operators: &'a [Operator],
    truth_values: Operators,
    sorts: SortSet,
}

// By a call, so that a proof takes old names apart in one place alone.
impl Drop for OldNames<'_> {
    fn drop(self) {
        let OldNames {
            operators: _operators,
            truth_values: _truth_values,
            sorts: _sorts,
        } = self;
    }
}

impl<'a> Model for OldNames<'a> {
    ghost use Rattle.std.specs.Prelude.{List, ◌≡◌};
    ghost use Rattle.larch_term.specs.Operator.{PlainOperator};
    ghost use Rattle.larch_flat_meaning.specs.SortsKnownSorts.{existing_sorts};
    ghost use Rattle.larch_flat_replacing.specs.Kept.{both_truth_values};

    ghost Value = { List PlainOperator };

    ghost view = { λ names. names.operators.now };

    ghost invariant = { λ names. (names.sorts ≡ existing_sorts names.operators.now)
        × (names.truth_values ≡ both_truth_values) };
}

impl<'a> OldNames<'a> {
    // What old names are looked for among in a trait with these operators.
    pub(crate) fn of(alloc: Global, operators: &'a [Operator]) -> Result<OldNames<'a>, Memory>
        ensures { IfOk result (λ names. names ≡ operators.now) }
    {
        let sorts = existing_sorts(alloc, operators)?;
        let truth_values = truth_values(alloc)?;
        Ok(OldNames {
            operators,
            truth_values,
            sorts,
        })
    }

    // Whether an old form names the sort of its name.
    pub(crate) fn is_sort(&self, old: &RawForm, sig: Option<&RawSig>) -> bool
        ensures { result ≡ names_sort self.now old.now (option_copied sig.entry) }
    {
        old.word && (sig.is_none() && self.sorts.contains(&old.name))
    }

    // The operators that an old form means, or the one of its signature.
    pub(crate) fn meant(
        &self,
        alloc: Global,
        old: &RawForm,
        sig: Option<&RawSig>,
    ) -> Result<Operators, Memory>
        ensures { IfOk result (λ meant. meant
            ≡ filter (is_meant (exactly old.now (option_copied sig.entry)) old.now.name)
            (with_truth_values self.now)) }
    {
        let exact = exactly(alloc, old, sig)?;
        let mut meant = Sequence::new(alloc);
        push_meant(&mut meant, &exact, &old.name, self.operators)?;
        push_meant(&mut meant, &exact, &old.name, self.truth_values.as_slice())?;
        Ok(meant)
    }
}

// The truth values.
fn truth_values(alloc: Global) -> Result<Operators, Memory>
    ensures { IfOk result (λ operators. operators ≡ both_truth_values) }
{
    let sort = bool_sort(alloc)?;
    let truth = BuiltIn::True.operator(alloc, &sort)?;
    let falsity = BuiltIn::False.operator(alloc, &sort)?;
    let mut operators = Sequence::new(alloc);
    operators.push(truth)?;
    operators.push(falsity)?;
    Ok(operators)
}

// The one operator that an old form with a signature means.
fn exactly(alloc: Global, old: &RawForm, sig: Option<&RawSig>) -> Result<Option<Operator>, Memory>
    ensures { IfOk result (λ exact. exact ≡ exactly old.now (option_copied sig.entry)) }
{
    match sig {
        Some(sig) => {
            let operator = operator_of(alloc, sig, old)?;
            Ok(Some(operator))
        }
        None => Ok(None),
    }
}

// Puts those of operators that a form means behind others.
fn push_meant(
    meant: &mut Operators,
    exact: &Option<Operator>,
    name: &Name,
    operators: &[Operator],
) -> Result<(), Memory>
    ensures { OnOk result (meant.new ≡ meant.old ++ filter (is_meant exact.now name.now) operators.now) }
{
    for operator in operators {
        if is_meant(exact, name, operator) {
            let operator = operator.copy()?;
            meant.push(operator)?;
        }
    }
    Ok(())
}

// Whether a form means an operator.
fn is_meant(exact: &Option<Operator>, name: &Name, operator: &Operator) -> bool
    ensures { result ≡ is_meant exact.now name.now operator.now }
{
    match exact {
        Some(exact) => *operator == *exact,
        None => *operator.name() == *name,
    }
}
