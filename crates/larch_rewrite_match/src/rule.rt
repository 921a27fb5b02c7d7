ghost use Rattle.std.specs.Prelude.{◌≡◌, IfOk};
ghost use Rattle.larch_rewrite_match.specs.Rule.{left_of, right_of, reason_of, rule_from};
ghost use Rattle.larch_rewrite_meaning.specs.Rewriting.{sort_at};
ghost use Rattle.larch_term.specs.Tree.{app, more, none};
ghost use Rattle.larch_rewrite_match.specs.Exchanged.{exchange_equality};
ghost use Rattle.larch_term.specs.BuiltIn.{is_built_in_as};
ghost use Rattle.larch_term.specs.declared.built_in.BuiltIn.TheVariants.{Equal};

use larch_base::{Memory, Name};
use larch_term::{BuiltIn, Operator, Sort, Term, Terms, copy, two_arguments};
use std::alloc::Global;

/// What says that the sides of a rule are equal.
#[derive(Drop)]
pub enum Reason {
    /// A row of built-in operators, by its number, counted from 1, at a sort where it has one.
    Row(u64, Option<Sort>),
    /// A line of a proof, by its number.
    Line(u64),
}

/// A rule from its left side to its right side. A left side that is an equality is kept with its sides exchanged too.
#[derive(Drop)]
pub struct RewriteRule {
    pub(crate) left: Term,
    pub(crate) right: Term,
    pub(crate) turned: Option<Term>,
    pub(crate) reason: Reason,
}

impl RewriteRule {
    /// The rule with these sides.
    pub fn new(
        alloc: Global,
        left: Term,
        right: Term,
        reason: Reason,
    ) -> Result<RewriteRule, Memory>
        ensures { IfOk result (λ rule. rule ≡ rule_from left right reason) }
    {
        let turned = turned(alloc, &left)?;
        Ok(RewriteRule {
            left,
            right,
            turned,
            reason,
        })
    }

    /// The left side.
    pub fn left(&self) -> &Term
        ensures { result.now ≡ left_of self.now }
    {
        &self.left
    }

    /// The right side.
    pub fn right(&self) -> &Term
        ensures { result.now ≡ right_of self.now }
    {
        &self.right
    }

    /// What says that they are equal.
    pub fn reason(&self) -> &Reason
        ensures { result.now ≡ reason_of self.now }
    {
        &self.reason
    }
}

// A term with the sides of an equality exchanged, if it is one.
#[tactic(auto, using(crate::proofs::Turned::turned_of_other, crate::proofs::Turned::turned_of_two))]
fn turned(alloc: Global, term: &Term) -> Result<Option<Term>, Memory>
    ensures { IfOk result (λ t. t ≡ exchange_equality term.now) }
{
    let Some(two) = two_arguments(term) else {
        return Ok(None);
    };
    if !is_equality(alloc, two.operator)? {
        return Ok(None);
    }
    let made = apply_two(alloc, two.operator, two.right, two.left)?;
    Ok(Some(made))
}

fn apply_two(alloc: Global, operator: &Operator, left: &Term, right: &Term) -> Result<Term, Memory>
    ensures { IfOk result (λ t. t ≡ app operator.now (more left.now (more right.now none))) }
{
    let operator = operator.copy()?;
    let mut arguments = Vec::with_capacity(alloc, 2)?;
    let left = copy(alloc, left)?;
    arguments.push(left)?;
    let right = copy(alloc, right)?;
    arguments.push(right)?;
    Ok(Term::app(operator, Terms::from_vec(arguments)))
}

// Whether an operator is the equality at some sort.
fn is_equality(alloc: Global, operator: &Operator) -> Result<bool, Memory>
    ensures { IfOk result (λ yes. yes ≡ is_built_in_as operator.now Equal) }
{
    let sort = sort_at(alloc, operator)?;
    let equality = BuiltIn::Equal.operator(alloc, &sort)?;
    Ok(*operator == equality)
}

/// The last sort of an operator's domain; the empty one where it has none. It is the sort at which a built-in operator
/// stands.
pub fn sort_at(alloc: Global, operator: &Operator) -> Result<Sort, Memory>
    ensures { IfOk result (λ s. s ≡ sort_at operator.now) }
{
    match operator.domain().last() {
        Some(sort) => {
            let sort = sort.copy()?;
            Ok(sort)
        }
        None => {
            let sort = Name::new(alloc, b"")?;
            Ok(sort)
        }
    }
}
