ghost use Rattle.std.specs.Prelude.{◌≡◌, ◌++◌, ◌∷◌, [], IfOk, IfErr, OnOk, Ok};
ghost use Rattle.larch_complete_meaning.specs.Rounds.{normal_sides};
ghost use Rattle.larch_complete_meaning.specs.Steps.{unless_event};
ghost use Rattle.larch_complete_pairs.specs.Said.{IsSaid, sides_in};
ghost use Rattle.larch_complete_rounds.specs.Halt.{Tells};
ghost use Rattle.larch_complete_rounds.specs.Ready.{IsReady, IsSmall, rules_in};
ghost use Rattle.larch_derive.specs.Builder.{IsEmpty};
ghost use Rattle.larch_derive.specs.Predicates.{Extends, HasEquation, HasNoBadLine, Known};
ghost use Rattle.larch_derive.specs.Words.{IsWordedTheory};
ghost use Rattle.larch_rewrite.specs.Refusal.{IsMade, TellsEvent};
ghost use Rattle.larch_rewrite_meaning.specs.NormalForm.{normal};
ghost use Rattle.larch_store.specs.Numbered.{term_of};
ghost use Rattle.larch_store.specs.Stored.{Belongs, Grows};
ghost use Rattle.larch_term.specs.Tree.{Tree};

use crate::halt::Halt;
use larch_base::{FactLetter, FactName, Memory};
use larch_complete_pairs::SaidEquation;
use larch_derive::Builder;
use larch_derive_lines::{push_sym, push_trans};
use larch_rewrite::{Normal, RewriteRefusal, Rules};
use larch_store::{Store, StoreRefusal};
use larch_term::{Term, Theory};
use std::alloc::Global;

/// What rewrites by the rules so far: the rules with the lines that say them, and the lines.
pub struct Rewriter {
    pub store: Store,
    pub builder: Builder,
    pub rules: Rules,
}

// By a call, so that a proof takes it apart in one place alone.
impl Drop for Rewriter {
    fn drop(self) {
        let Rewriter {
            store: _store,
            builder: _builder,
            rules: _rules,
        } = self;
    }
}

impl Rewriter {
    /// No rules yet, and no lines.
    pub fn new(alloc: Global, theory: &Theory) -> Result<Rewriter, Memory>
        ensures none { IfOk result (λ r. rules_in r ≡ []) }
        ensures ready { IfOk result IsReady }
        ensures empty { IfOk result (λ r. IsEmpty theory.now r.builder) }
        ensures stands { IfOk result (λ r. IsWordedTheory theory.now → HasNoBadLine r.builder) }
    {
        let store = Store::new(alloc)?;
        let builder = Builder::new(alloc, theory)?;
        let rules = Rules::new(alloc)?;
        Ok(Rewriter {
            store,
            builder,
            rules,
        })
    }

    /// The equation with both sides in normal form under one budget, the left one first. After a refusal the builder
    /// may have further lines, none of them bad.
    pub fn reduce(
        &mut self,
        alloc: Global,
        equation: &SaidEquation,
        budget: u32,
    ) -> Result<SaidEquation, Halt>
        requires equation { IsSaid self.old.builder equation.now }
        requires ready { IsReady self.old }
        ensures reduced { IfOk result
            (λ e. unless_event (normal_sides (rules_in self.old) (sides_in equation.now) budget) ≡ Ok (sides_in e)) }
        ensures refused { IfErr result
            (Tells (unless_event (normal_sides (rules_in self.old) (sides_in equation.now) budget))) }
        ensures small { IfOk result IsSmall }
        ensures says { IfOk result (IsSaid self.new.builder) }
        ensures extends { Extends self.old.builder self.new.builder }
        ensures rules { rules_in self.new ≡ rules_in self.old }
        ensures ready { OnOk result (IsReady self.new) }
    {
        let left = self.normal_form(&equation.left, budget)?;
        let further = budget.saturating_sub(left.cost);
        let right = self.normal_form(&equation.right, further)?;
        let reduced = self.between(alloc, equation.line, &left, &right)?;
        Ok(reduced)
    }

    // The normal form of a term, which is formed for it.
    fn normal_form(&mut self, term: &Term, budget: u32) -> Result<Normal, RewriteRefusal>
        requires known { Known self.old.builder term.now }
        requires ready { IsReady self.old }
        ensures made { IfOk result (λ n. IsMade budget n.cost (term_of n.form)
            (normal (rules_in self.old) term.now budget)) }
        ensures refused { IfErr result (TellsEvent (normal (rules_in self.old) term.now budget)) }
        ensures says { IfOk result (λ n. HasEquation self.new.builder n.line term.now (term_of n.form)) }
        ensures belongs { IfOk result (λ n. Belongs self.new.store n.form) }
        ensures grows { Grows self.old.store self.new.store }
        ensures extends { Extends self.old.builder self.new.builder }
        ensures rules { rules_in self.new ≡ rules_in self.old }
        ensures ready { OnOk result (IsReady self.new) }
    {
        let start = self.store.intern(term)?;
        let normal = self
            .rules
            .normalise(&mut self.store, &mut self.builder, &start, budget)?;
        Ok(normal)
    }

    // The equation of two normal forms, from a line that says that of the terms whose forms they are.
    fn between(
        &mut self,
        alloc: Global,
        line: u64,
        left: &Normal,
        right: &Normal,
    ) -> Result<SaidEquation, Memory>
        requires left { Belongs self.old.store left.now.form }
        requires right { Belongs self.old.store right.now.form }
        ensures left { IfOk result (λ e. e.left ≡ term_of left.now.form) }
        ensures right { IfOk result (λ e. e.right ≡ term_of right.now.form) }
        ensures small { IfOk result IsSmall }
        ensures says { IfOk result (λ e. (l r : Tree)
            → HasEquation self.old.builder left.now.line l (term_of left.now.form)
            → HasEquation self.old.builder line l r
            → HasEquation self.old.builder right.now.line r (term_of right.now.form) → IsSaid self.new.builder e) }
        ensures extends { (l r : Tree) → HasEquation self.old.builder left.now.line l (term_of left.now.form)
            → HasEquation self.old.builder line l r
            → HasEquation self.old.builder right.now.line r (term_of right.now.form)
            → Extends self.old.builder self.new.builder }
        ensures store { self.new.store ≡ self.old.store }
        ensures rules { self.new.rules ≡ self.old.rules }
    {
        self.store.sizes_are_told();
        let line = push_between(alloc, &mut self.builder, left.line, line, right.line)?;
        let left = self.store.to_term(&left.form)?;
        let right = self.store.to_term(&right.form)?;
        Ok(SaidEquation { left, right, line })
    }

    /// Puts a rule behind the others, with the line that says it.
    #[tactic(auto, using(crate::proofs::Adding::not_refused, crate::proofs::Adding::rules_added))]
    pub fn add(&mut self, rule: &SaidEquation) -> Result<(), Memory>
        requires said { IsSaid self.old.builder rule.now }
        requires small { IsSmall rule.now }
        requires ready { IsReady self.old }
        ensures rules { OnOk result (rules_in self.new ≡ rules_in self.old ++ sides_in rule.now ∷ []) }
        ensures ready { OnOk result (IsReady self.new) }
        ensures builder { self.new.builder ≡ self.old.builder }
    {
        match self.rules.add_rule(
            &mut self.store,
            rule_name(),
            &rule.left,
            &rule.right,
            rule.line,
        ) {
            Ok(()) => Ok(()),
            Err(StoreRefusal::TooLarge) => unreachable!(),
            Err(StoreRefusal::Memory) => Err(Memory),
        }
    }
}

// The name of all rules: none is looked for by it.
fn rule_name() -> FactName {
    FactName {
        letter: FactLetter::Derived,
        number: 0,
        part: 0,
    }
}

// A line that says an equation with other sides, to which its own are equal.
#[tactic(auto, using(larch_derive::proofs::Growth::extends_same))]
fn push_between(
    alloc: Global,
    builder: &mut Builder,
    left: u64,
    line: u64,
    right: u64,
) -> Result<u64, Memory>
    ensures says { IfOk result (λ n. (l k r q : Tree) → HasEquation builder.old left l k
        → HasEquation builder.old line l r → HasEquation builder.old right r q → HasEquation builder.new n k q) }
    ensures extends { (l k r q : Tree) → HasEquation builder.old left l k → HasEquation builder.old line l r
        → HasEquation builder.old right r q → Extends builder.old builder.new }
{
    let back = push_sym(builder, left)?;
    let half = push_trans(alloc, builder, back, line)?;
    let number = push_trans(alloc, builder, half, right)?;
    Ok(number)
}
