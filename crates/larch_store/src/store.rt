ghost use Rattle.std.specs.Prelude.{◌≡◌, ◌↔◌, ◌+◌, ◌≤◌, List, [], map, sum_by, IsTrue, IfOk, IfErr, OnOk};
ghost use Rattle.larch_term.specs.Operator.{PlainOperator};
ghost use Rattle.larch_term.specs.Tree.{var, app, nodes, forest_of};
ghost use Rattle.larch_store.specs.Numbered.{Numbered, term_of, number_of, size_of, children_of};
ghost use Rattle.larch_store.specs.Refusal.{MayRefuse};
ghost use Rattle.larch_store.specs.Stored.{Belongs, AllBelong, Grows, most_nodes};

use crate::entries::Entries;
use crate::interning::intern_term;
use crate::keeping::{keep_application, keep_variable};
use crate::reading::term_from;
use crate::refusal::StoreRefusal;
use crate::shared::{Shared, SharedList};
use crate::table::size_above;
use larch_base::limits::MAX_TERM_NODES;
use larch_base::{Memory, Name};
use larch_term::{Operator, Sort, Term, size};
use std::alloc::Global;
use std::marker::Model;

/// Terms whose subterms are shared: each different node stands in a store once, under a number, so that equal terms
/// are one shared term. Contracts see a store as its shared terms, in the order of their numbers. A store only grows.
#[derive(Drop)]
pub struct Store {
    entries: Entries,
}

impl Model for Store {
    ghost use Rattle.std.specs.Prelude.{List};
    ghost use Rattle.std.specs.Coded.{coded_list};
    ghost use Rattle.std.specs.Map.{keys_of};
    ghost use Rattle.larch_store.specs.Layers.{shared_in};
    ghost use Rattle.larch_store.specs.Numbered.{Numbered};
    ghost use Rattle.larch_store.specs.NumberedCode.{coded_numbered};
    ghost use Rattle.larch_store.specs.Stored.{IsStore};

    ghost Value = { List Numbered };

    ghost coded = { coded_list coded_numbered };

    ghost view = { λ store. shared_in store.entries };

    ghost invariant = { λ store. IsStore (keys_of store.entries) (shared_in store.entries) };
}

impl Store {
    /// A store without terms.
    #[tactic(auto, unfolding(crate::specs::Stored::AllStandBehind))]
    pub fn new(alloc: Global) -> Result<Store, Memory>
        ensures { IfOk result (λ store. store ≡ []) }
    {
        let entries = Entries::new(alloc)?;
        Ok(Store { entries })
    }

    /// A store to which the same shared terms belong, each as the same term with the same number. What is put into
    /// one of them from then on need not belong to the other. The two share what is there: of n terms it takes as many
    /// steps as n has digits, and no memory for a term.
    #[tactic(auto, using(crate::proofs::Within::copied_store))]
    pub fn copy(&self) -> Result<Store, Memory>
        ensures { IfOk result (λ store. store ≡ self.now) }
    {
        let entries = self.entries.copy()?;
        Ok(Store { entries })
    }

    // Where its memory comes from.
    pub(crate) fn allocator(&self) -> Global {
        self.entries.allocator()
    }

    /// The shared term that is a term. It is refused as too large exactly if it has more than 5,000 nodes. It goes
    /// down the term by recursion, a level of the stack for each level of the term.
    #[tactic(auto, using(crate::proofs::Growth::grows_refl))]
    pub fn intern(&mut self, term: &Term) -> Result<Shared, StoreRefusal>
        ensures term { IfOk result (λ shared. term_of shared ≡ term.now) }
        ensures belongs { IfOk result (λ shared. Belongs self.new shared) }
        ensures small { OnOk result (nodes term.now ≤ most_nodes) }
        ensures refused { IfErr result (λ refusal. MayRefuse (nodes term.now) refusal) }
        ensures grows { Grows self.old self.new }
    {
        if size(term) > u64::from(MAX_TERM_NODES) {
            return Err(StoreRefusal::TooLarge);
        }
        let shared = intern_term(self, term)?;
        Ok(shared)
    }

    /// The shared term that is a variable.
    pub fn variable(&mut self, name: &Name, sort: &Sort) -> Result<Shared, Memory>
        ensures term { IfOk result (λ shared. term_of shared ≡ var name.now sort.now) }
        ensures belongs { IfOk result (λ shared. Belongs self.new shared) }
        ensures grows { Grows self.old self.new }
    {
        let shared = keep_variable(&mut self.entries, name, sort)?;
        Ok(shared)
    }

    /// The shared term that is an operator with arguments; their sorts may be any. It is refused as too large exactly
    /// if it has more than 5,000 nodes. It takes time by the number of arguments, whatever their size.
    #[tactic(auto, using(crate::proofs::Growth::grows_refl))]
    pub fn apply(
        &mut self,
        operator: &Operator,
        children: &SharedList,
    ) -> Result<Shared, StoreRefusal>
        requires { AllBelong self.old children.now }
        ensures term { IfOk result (λ x. term_of x ≡ app operator.now (forest_of (map term_of children.now))) }
        ensures belongs { IfOk result (λ shared. Belongs self.new shared) }
        ensures small { OnOk result (nodes (app operator.now (forest_of (map term_of children.now))) ≤ most_nodes) }
        ensures refused { IfErr result
            (λ refusal. MayRefuse (nodes (app operator.now (forest_of (map term_of children.now)))) refusal) }
        ensures grows { Grows self.old self.new }
    {
        self.sizes_are_told();
        let Some(size) = size_above(children.as_slice()) else {
            return Err(StoreRefusal::TooLarge);
        };
        let shared = keep_application(&mut self.entries, operator, children.as_slice(), size)?;
        Ok(shared)
    }

    /// The term that a shared term is. It goes down the term by recursion.
    pub fn to_term(&self, shared: &Shared) -> Result<Term, Memory>
        ensures { IfOk result (λ term. term ≡ term_of shared.now) }
    {
        let term = term_from(self.allocator(), shared)?;
        Ok(term)
    }

    /// Whether two shared terms are equal terms. It takes no memory, and its time is constant.
    pub fn same(&self, left: &Shared, right: &Shared) -> bool
        requires left { Belongs self.now left.now }
        requires right { Belongs self.now right.now }
        ensures { IsTrue result ↔ (term_of left.now ≡ term_of right.now) }
    {
        self.terms_have_numbers();
        left.number() == right.number()
    }

    /// The number of a shared term. It takes no memory. No call changes it, and a copy of the store answers the same.
    pub fn number(&self, shared: &Shared) -> u64
        ensures { result ≡ number_of shared.now }
    {
        shared.number()
    }

    /// How many nodes a shared term has as a term, 5,000 at most. It takes no memory, and its time is constant.
    pub fn size(&self, shared: &Shared) -> u64
        requires { Belongs self.now shared.now }
        ensures size { result ≡ nodes (term_of shared.now) }
        ensures small { result ≤ most_nodes }
    {
        self.sizes_are_told();
        shared.size()
    }

    // Laws, each a call without work.

    /// Of two shared terms that belong to the store and are equal terms, or have one number, both are one.
    pub fn terms_have_numbers(&self)
        ensures terms { (x y : Numbered) → Belongs self.now x → Belongs self.now y → term_of x ≡ term_of y → x ≡ y }
        ensures numbers { (x y : Numbered) → Belongs self.now x → Belongs self.now y
            → number_of x ≡ number_of y → x ≡ y }
    {
        self.entries.keys_differ();
    }

    /// The arguments of a shared term that belongs to the store belong to it.
    pub fn children_belong(&self)
        ensures { (x : Numbered) → Belongs self.now x → AllBelong self.now (children_of x) }
    {
        self.entries.keys_differ();
    }

    /// The size of a shared term that belongs to the store is its term's, 5,000 at most, and the size of an operator
    /// with such arguments is one more than theirs together.
    pub fn sizes_are_told(&self)
        ensures one { (x : Numbered) → Belongs self.now x → size_of x ≡ nodes (term_of x) }
        ensures small { (x : Numbered) → Belongs self.now x → nodes (term_of x) ≤ most_nodes }
        ensures all { (f : PlainOperator) (xs : List Numbered) → AllBelong self.now xs
            → nodes (app f (forest_of (map term_of xs))) ≡ 1 + sum_by size_of xs }
    {
        self.entries.keys_differ();
    }
}
