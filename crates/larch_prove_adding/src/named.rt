ghost use Rattle.std.specs.Prelude.{◌≡◌, find, length, option_copied, IfOk};
ghost use Rattle.larch_prove_adding.specs.Equation.{sides_in};
ghost use Rattle.larch_rewrite.specs.RuleSet.{has_name, sides_of_plain, without};

use crate::equation::SaidEquation;
use larch_base::{FactName, Memory};
use larch_rewrite::{NamedRule, Rules};
use larch_term::copy;
use std::alloc::Global;

// The first of so many rules that has a name, if one has.
pub(crate) fn rule_named<'a>(rules: &'a Rules, count: u32, name: &FactName) -> Option<&'a NamedRule>
    requires { count ≡ length rules.now.rules }
    ensures { option_copied result ≡ find (has_name name.now) rules.now.rules }
{
    for index in 0..count {
        let Some(rule) = rules.get(index as usize) else {
            unreachable!()
        };
        if rule.has_name(name) {
            return Some(rule);
        }
    }
    None
}

// How many of so many rules have another name.
pub(crate) fn count_others(rules: &Rules, count: u32, name: &FactName) -> u32
    requires { count ≡ length rules.now.rules }
    ensures { result ≡ length (without name.now rules.now.rules) }
{
    let mut others = 0;
    for index in 0..count {
        let Some(rule) = rules.get(index as usize) else {
            unreachable!()
        };
        if !rule.has_name(name) {
            others += 1;
        }
    }
    others
}

// The equation of a rule, with its line.
pub(crate) fn equation_of(alloc: Global, rule: &NamedRule) -> Result<SaidEquation, Memory>
    ensures sides { IfOk result (λ e. sides_in e ≡ sides_of_plain rule.now) }
    ensures line { IfOk result (λ e. e.line ≡ rule.now.line) }
{
    let line = rule.line();
    let left = copy(alloc, rule.left())?;
    let right = copy(alloc, rule.right())?;
    Ok(SaidEquation { left, right, line })
}
