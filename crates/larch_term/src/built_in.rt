ghost use Rattle.std.specs.Prelude.{◌≡◌, ◌↔◌, ◌-◌, ◌∷◌, [], IsTrue, IfOk, IfSome, IfNone, length, map};
ghost use Rattle.std.specs.List.{slice_index_or};
ghost use Rattle.larch_term.specs.BuiltIn.{IsBuiltIn, IsBuiltInAs, built_in_domain, built_in_range, bool_sort};
ghost use Rattle.larch_term.specs.BuiltInNames.{built_in_named, built_in_between, built_in_at_each_sort};

use crate::operator::{Operator, Sort, Sorts};
use crate::term::{Term, Terms};
use larch_base::{Memory, Name, Sequence};
use std::alloc::Global;

/// The built-in operators. Equality, inequality and choice are there for each sort.
#[derive(Clone, Copy, Debug, PartialEq, Eq)]
pub enum BuiltIn {
    True,
    False,
    Not,
    And,
    Or,
    Implies,
    Iff,
    Equal,
    Unequal,
    If,
}

impl BuiltIn {
    ghost use Rattle.std.specs.Prelude.{◌≡◌, IfOk};
    ghost use Rattle.larch_term.specs.BuiltIn.{bool_sort};
    ghost use Rattle.larch_term.specs.BuiltIn.{built_in, built_in_name, built_in_domain, built_in_range};
    ghost use Rattle.larch_term.specs.Tree.{app, none};

    /// Its canonical name.
    pub fn name(self) -> &'static [u8]
        ensures { result.now ≡ built_in_name self }
    {
        match self {
            BuiltIn::True => b"true",
            BuiltIn::False => b"false",
            BuiltIn::Not => b"~ __",
            BuiltIn::And => b"__ /\\ __",
            BuiltIn::Or => b"__ \\/ __",
            BuiltIn::Implies => b"__ => __",
            BuiltIn::Iff => b"__ <=> __",
            BuiltIn::Equal => b"__ = __",
            BuiltIn::Unequal => b"__ ~= __",
            BuiltIn::If => b"if __ then __ else __",
        }
    }

    /// The operator at a sort.
    pub fn operator(self, alloc: Global, sort: &Sort) -> Result<Operator, Memory>
        ensures { IfOk result (λ operator. operator ≡ built_in self sort.now) }
    {
        let truth = bool_sort(alloc)?;
        let domain = self.domain(alloc, &truth, sort)?;
        let range = self.range(&truth, sort)?;
        let name = Name::new(alloc, self.name())?;
        Operator::new(alloc, name, domain, range)
    }

    /// The operator at `Bool` as a term without arguments: of `True` and of `False` the truth value.
    pub fn constant(self, alloc: Global) -> Result<Term, Memory>
        ensures { IfOk result (λ term. term ≡ app (built_in self bool_sort) none) }
    {
        let sort = bool_sort(alloc)?;
        let operator = self.operator(alloc, &sort)?;
        Ok(Term::app(operator, Terms::from_vec(Vec::new(alloc))))
    }

    fn domain(self, alloc: Global, truth: &Sort, sort: &Sort) -> Result<Sorts, Memory>
        requires { truth.now ≡ bool_sort }
        ensures { IfOk result (λ sorts. sorts ≡ built_in_domain self sort.now) }
    {
        match self {
            BuiltIn::True | BuiltIn::False => Ok(Sequence::new(alloc)),
            BuiltIn::Not => sorts_of(alloc, &[truth]),
            BuiltIn::And | BuiltIn::Or | BuiltIn::Implies | BuiltIn::Iff => sorts_of(
                alloc,
                &[truth, truth],
            ),
            BuiltIn::Equal | BuiltIn::Unequal => sorts_of(alloc, &[sort, sort]),
            BuiltIn::If => sorts_of(alloc, &[truth, sort, sort]),
        }
    }

    fn range(self, truth: &Sort, sort: &Sort) -> Result<Sort, Memory>
        requires { truth.now ≡ bool_sort }
        ensures { IfOk result (λ range. range ≡ built_in_range self sort.now) }
    {
        match self {
            BuiltIn::If => sort.copy(),
            _ => truth.copy(),
        }
    }
}

/// Which built-in operator it is, if it is one. It takes no memory.
#[tactic(auto, using(crate::proofs::BuiltIns::is_named))]
pub fn built_in_of(operator: &Operator) -> Option<BuiltIn>
    ensures some { IfSome result (λ b. IsBuiltInAs b operator.now) }
    ensures none { IfNone result (IsBuiltIn operator.now → ⊥) }
{
    let Some(candidate) = built_in_named(operator.name().bytes()) else {
        return None;
    };
    if is_built_in_as(candidate, operator) {
        return Some(candidate);
    }
    None
}

// Which built-in operators have this name.
fn built_in_named(name: &[u8]) -> Option<BuiltIn>
    ensures { result ≡ built_in_named name.now }
{
    if name == BuiltIn::True.name() {
        Some(BuiltIn::True)
    } else if name == BuiltIn::False.name() {
        Some(BuiltIn::False)
    } else if name == BuiltIn::Not.name() {
        Some(BuiltIn::Not)
    } else {
        built_in_between(name)
    }
}

// Which built-in operators that stand between their arguments, or among them, have this name.
fn built_in_between(name: &[u8]) -> Option<BuiltIn>
    ensures { result ≡ built_in_between name.now }
{
    if name == BuiltIn::And.name() {
        Some(BuiltIn::And)
    } else if name == BuiltIn::Or.name() {
        Some(BuiltIn::Or)
    } else if name == BuiltIn::Implies.name() {
        Some(BuiltIn::Implies)
    } else if name == BuiltIn::Iff.name() {
        Some(BuiltIn::Iff)
    } else {
        built_in_at_each_sort(name)
    }
}

// Which of the built-in operators that are there for each sort have this name.
fn built_in_at_each_sort(name: &[u8]) -> Option<BuiltIn>
    ensures { result ≡ built_in_at_each_sort name.now }
{
    if name == BuiltIn::Equal.name() {
        Some(BuiltIn::Equal)
    } else if name == BuiltIn::Unequal.name() {
        Some(BuiltIn::Unequal)
    } else if name == BuiltIn::If.name() {
        Some(BuiltIn::If)
    } else {
        None
    }
}

/// Whether the operator is a built-in one. It takes no memory.
pub fn is_built_in(operator: &Operator) -> bool
    ensures { IsTrue result ↔ IsBuiltIn operator.now }
{
    built_in_of(operator).is_some()
}

// Whether the operator is this built-in one at some sort. That sort could only be the last of its domain.
#[tactic(auto, using(crate::proofs::BuiltIns::is_built_in_at_last))]
fn is_built_in_as(candidate: BuiltIn, operator: &Operator) -> bool
    ensures { IsTrue result ↔ IsBuiltInAs candidate operator.now }
{
    let sort = last_sort(operator.domain());
    operator.name().bytes() == candidate.name()
        && has_domain(candidate, operator.domain(), sort)
        && has_range(candidate, operator.range(), sort)
}

fn last_sort(sorts: &[Sort]) -> &[u8]
    ensures { result.now ≡ slice_index_or sorts.now (length sorts.now - 1) [] }
{
    match sorts.last() {
        Some(sort) => sort.bytes(),
        None => &[],
    }
}

fn has_domain(candidate: BuiltIn, domain: &[Sort], sort: &[u8]) -> bool
    ensures { IsTrue result ↔ (domain.now ≡ built_in_domain candidate sort.now) }
{
    let truth = b"Bool".as_slice();
    match candidate {
        BuiltIn::True | BuiltIn::False => are_none(domain),
        BuiltIn::Not => is_one(domain, truth),
        BuiltIn::And | BuiltIn::Or | BuiltIn::Implies | BuiltIn::Iff => are_two(
            domain, truth, truth,
        ),
        BuiltIn::Equal | BuiltIn::Unequal => are_two(domain, sort, sort),
        BuiltIn::If => are_three(domain, truth, sort, sort),
    }
}

fn has_range(candidate: BuiltIn, range: &Sort, sort: &[u8]) -> bool
    ensures { IsTrue result ↔ (range.now ≡ built_in_range candidate sort.now) }
{
    match candidate {
        BuiltIn::If => range.bytes() == sort,
        _ => range.bytes() == b"Bool".as_slice(),
    }
}

#[tactic(auto, using(crate::proofs::BuiltIns::empty_is_nil))]
fn are_none(sorts: &[Sort]) -> bool
    ensures { IsTrue result ↔ (sorts.now ≡ []) }
{
    sorts.is_empty()
}

fn is_one(sorts: &[Sort], name: &[u8]) -> bool
    ensures { IsTrue result ↔ (sorts.now ≡ name.now ∷ []) }
{
    match sorts.split_first() {
        Some((first, rest)) => first.bytes() == name && are_none(rest),
        None => false,
    }
}

fn are_two(sorts: &[Sort], name: &[u8], second: &[u8]) -> bool
    ensures { IsTrue result ↔ (sorts.now ≡ name.now ∷ second.now ∷ []) }
{
    match sorts.split_first() {
        Some((first, rest)) => first.bytes() == name && is_one(rest, second),
        None => false,
    }
}

fn are_three(sorts: &[Sort], name: &[u8], second: &[u8], third: &[u8]) -> bool
    ensures { IsTrue result ↔ (sorts.now ≡ name.now ∷ second.now ∷ third.now ∷ []) }
{
    match sorts.split_first() {
        Some((first, rest)) => first.bytes() == name && are_two(rest, second, third),
        None => false,
    }
}

/// The sort of truth values.
pub fn bool_sort(alloc: Global) -> Result<Sort, Memory>
    ensures { IfOk result (λ sort. sort ≡ bool_sort) }
{
    Name::new(alloc, b"Bool")
}

// A list of copies.
fn sorts_of(alloc: Global, sorts: &[&Sort]) -> Result<Sorts, Memory>
    ensures { IfOk result (λ copies. copies ≡ map (λ sort. sort.now) sorts.now) }
{
    let mut copies = Sequence::new(alloc);
    for sort in sorts {
        let copy = sort.copy()?;
        copies.push(copy)?;
    }
    Ok(copies)
}
