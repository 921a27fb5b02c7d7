ghost use Rattle.std.specs.Prelude.{◌≡◌, ◌↔◌, IsTrue, map};
ghost use Rattle.larch_script_commands.specs.Bare.{bare, bare_instance, bare_kind};

use crate::command::{CommandKind, Commands, RawCommand, RawInstance, RawInstances};
use crate::equation::{same_equation, same_word, same_words};
use crate::reference::same_reference;
use larch_base::{Code, FactName, Way};
use larch_raw::{RawEquation, RawOpRef, RawWord, RawWords};

/// Whether two commands are equal, wherever they and their parts stand. It takes no memory.
pub fn same_command(left: &RawCommand, right: &RawCommand) -> bool
    ensures { IsTrue result ↔ (bare left.now ≡ bare right.now) }
{
    same_kind(&left.kind, &right.kind)
}

/// Whether two lists of commands are equal, wherever these and their parts stand. It takes no memory.
pub fn same_commands(left: &Commands, right: &Commands) -> bool
    ensures { IsTrue result ↔ (map bare left.now ≡ map bare right.now) }
{
    let commands = left.as_slice();
    let others = right.as_slice();
    if commands.len() != others.len() {
        return false;
    }
    for i in 0..commands.len() {
        if !same_command(&commands[i], &others[i]) {
            return false;
        }
    }
    true
}

fn same_kind(left: &CommandKind, right: &CommandKind) -> bool
    ensures { IsTrue result ↔ (bare_kind left.now ≡ bare_kind right.now) }
{
    match left {
        CommandKind::Declare(names, sort) => is_declaration(names, sort, right),
        CommandKind::Limit(number) => is_limit(*number, right),
        CommandKind::BoxChecking(on) => is_box_checking(*on, right),
        CommandKind::Height(upper, lower) => is_height(upper, lower, right),
        CommandKind::Status(way, operator) => is_status(*way, operator, right),
        CommandKind::Prove(equation) => is_proof(equation, right),
        CommandKind::Cases(term) => is_cases(term, right),
        CommandKind::Implication => matches!(right, CommandKind::Implication),
        CommandKind::Conjunction => matches!(right, CommandKind::Conjunction),
        CommandKind::Contradiction => matches!(right, CommandKind::Contradiction),
        CommandKind::Induction(variable) => is_induction(variable, right),
        CommandKind::Partition => matches!(right, CommandKind::Partition),
        CommandKind::Instantiate(instances, fact) => is_instance(instances, fact, right),
        CommandKind::CriticalPairs(first, second) => is_critical(first, second, right),
        CommandKind::Normalize(fact) => is_normalizing(fact, right),
        CommandKind::Qed => matches!(right, CommandKind::Qed),
        CommandKind::Mark(proved) => is_mark(*proved, right),
        CommandKind::Bad(code) => is_bad(*code, right),
    }
}

fn is_declaration(names: &RawWords, sort: &RawWord, other: &CommandKind) -> bool
    ensures { IsTrue result ↔ (bare_kind (CommandKind.Declare names.now sort.now) ≡ bare_kind other.now) }
{
    match other {
        CommandKind::Declare(others, other_sort) => {
            same_words(names.as_slice(), others.as_slice()) && same_word(sort, other_sort)
        }
        _ => false,
    }
}

fn is_limit(number: u32, other: &CommandKind) -> bool
    ensures { IsTrue result ↔ (CommandKind.Limit number ≡ bare_kind other.now) }
{
    match other {
        CommandKind::Limit(other) => number == *other,
        _ => false,
    }
}

fn is_box_checking(on: bool, other: &CommandKind) -> bool
    ensures { IsTrue result ↔ (CommandKind.BoxChecking on ≡ bare_kind other.now) }
{
    match other {
        CommandKind::BoxChecking(other) => on == *other,
        _ => false,
    }
}

fn is_height(upper: &RawOpRef, lower: &RawOpRef, other: &CommandKind) -> bool
    ensures { IsTrue result ↔ (bare_kind (CommandKind.Height upper.now lower.now) ≡ bare_kind other.now) }
{
    match other {
        CommandKind::Height(other_upper, other_lower) => {
            same_reference(upper, other_upper) && same_reference(lower, other_lower)
        }
        _ => false,
    }
}

fn is_status(way: Way, operator: &RawOpRef, other: &CommandKind) -> bool
    ensures { IsTrue result ↔ (bare_kind (CommandKind.Status way operator.now) ≡ bare_kind other.now) }
{
    match other {
        CommandKind::Status(other_way, other) => {
            way == *other_way && same_reference(operator, other)
        }
        _ => false,
    }
}

fn is_proof(equation: &RawEquation, other: &CommandKind) -> bool
    ensures { IsTrue result ↔ (bare_kind (CommandKind.Prove equation.now) ≡ bare_kind other.now) }
{
    match other {
        CommandKind::Prove(other) => same_equation(equation, other),
        _ => false,
    }
}

fn is_cases(term: &RawEquation, other: &CommandKind) -> bool
    ensures { IsTrue result ↔ (bare_kind (CommandKind.Cases term.now) ≡ bare_kind other.now) }
{
    match other {
        CommandKind::Cases(other) => same_equation(term, other),
        _ => false,
    }
}

fn is_induction(variable: &RawWord, other: &CommandKind) -> bool
    ensures { IsTrue result ↔ (bare_kind (CommandKind.Induction variable.now) ≡ bare_kind other.now) }
{
    match other {
        CommandKind::Induction(other) => same_word(variable, other),
        _ => false,
    }
}

fn is_instance(instances: &RawInstances, fact: &FactName, other: &CommandKind) -> bool
    ensures { IsTrue result ↔ (bare_kind (CommandKind.Instantiate instances.now fact.now) ≡ bare_kind other.now) }
{
    match other {
        CommandKind::Instantiate(others, other) => {
            same_instances(instances.as_slice(), others.as_slice()) && *fact == *other
        }
        _ => false,
    }
}

fn same_instances(left: &[RawInstance], right: &[RawInstance]) -> bool
    ensures { IsTrue result ↔ (map bare_instance left.now ≡ map bare_instance right.now) }
{
    if left.len() != right.len() {
        return false;
    }
    for i in 0..left.len() {
        if !same_instance(&left[i], &right[i]) {
            return false;
        }
    }
    true
}

fn same_instance(left: &RawInstance, right: &RawInstance) -> bool
    ensures { IsTrue result ↔ (bare_instance left.now ≡ bare_instance right.now) }
{
    same_word(&left.name, &right.name) && same_equation(&left.term, &right.term)
}

fn is_critical(first: &FactName, second: &FactName, other: &CommandKind) -> bool
    ensures { IsTrue result ↔ (CommandKind.CriticalPairs first.now second.now ≡ bare_kind other.now) }
{
    match other {
        CommandKind::CriticalPairs(other_first, other_second) => {
            *first == *other_first && *second == *other_second
        }
        _ => false,
    }
}

fn is_normalizing(fact: &FactName, other: &CommandKind) -> bool
    ensures { IsTrue result ↔ (CommandKind.Normalize fact.now ≡ bare_kind other.now) }
{
    match other {
        CommandKind::Normalize(other) => *fact == *other,
        _ => false,
    }
}

fn is_mark(proved: bool, other: &CommandKind) -> bool
    ensures { IsTrue result ↔ (CommandKind.Mark proved ≡ bare_kind other.now) }
{
    match other {
        CommandKind::Mark(other) => proved == *other,
        _ => false,
    }
}

fn is_bad(code: Code, other: &CommandKind) -> bool
    ensures { IsTrue result ↔ (CommandKind.Bad code ≡ bare_kind other.now) }
{
    match other {
        CommandKind::Bad(other) => code == *other,
        _ => false,
    }
}
