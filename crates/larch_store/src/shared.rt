ghost use Rattle.std.specs.Prelude.{◌≡◌, ◌++◌, ◌∷◌, [], IfOk, OnOk, OnErr};
ghost use Rattle.larch_term.specs.Sorts.{sort_of};
ghost use Rattle.larch_store.specs.Numbered.{number_of, size_of, term_of};
ghost use Rattle.larch_store.specs.SharedView.{view_shared};

use larch_base::{Memory, Name};
use larch_term::{Operator, Sort};
use std::alloc::Global;
use std::marker::Model;
use std::rc::Rc;

/// A term whose nodes stand in a store, each once, and are shared by all terms that they stand in. Contracts see it
/// as a tree whose nodes have numbers and sizes; the term that it is, is `term_of` of that.
#[cycle(shared)]
#[derive(Drop)]
pub struct Shared {
    kept: Rc<Kept>,
}

#[cycle(shared)]
#[derive(Drop)]
struct Kept {
    node: SharedNode,
    number: u64,
    size: u64,
}

/// What a shared term is at its root.
#[cycle(shared)]
#[derive(Drop)]
pub enum SharedNode {
    /// A variable: its name and sort.
    Variable(Name, Sort),
    /// An operator with its arguments.
    Application(Operator, SharedList),
}

/// Shared terms, in order.
#[cycle(shared)]
#[derive(Drop)]
pub struct SharedList {
    items: Vec<Shared>,
}

impl Model for Shared {
    ghost use Rattle.larch_store.specs.Numbered.{Numbered, term_of};
    ghost use Rattle.larch_store.specs.NumberedCode.{coded_numbered};

    ghost Value = { Numbered };

    ghost coded = { coded_numbered };

    ghost use Rattle.std.specs.Prelude.{◌*◌};
    ghost use Rattle.larch_term.specs.Tree.{nodes};
    ghost use Rattle.larch_store.specs.SharedView.{view_kept};

    ghost view = { λ shared. view_kept shared.kept.value };

    ghost size = { λ shared. 2 * nodes (term_of shared) };

    ghost use Rattle.larch_store.specs.KeptFalls.{node_falls};

    ghost size_decreases = { λ shared _.
        node_falls shared.kept.value.number shared.kept.value.size shared.kept.value.node };
}

impl Model for SharedList {
    ghost use Rattle.std.specs.Prelude.{List, ◌*◌, ◌+◌};
    ghost use Rattle.std.proofs.Common.{arith};
    ghost use Rattle.std.specs.Coded.{coded_list};
    ghost use Rattle.larch_term.specs.Tree.{nodes_all};
    ghost use Rattle.larch_store.specs.Numbered.{Numbered, terms_of, several};
    ghost use Rattle.larch_store.specs.NumberedCode.{coded_numbered};
    ghost use Rattle.larch_store.specs.NumberedFalls.{most_below};

    ghost Value = { List Numbered };

    ghost coded = { coded_list coded_numbered };

    ghost view = { λ list. list.items.items };

    ghost size = { λ list. 2 * nodes_all (terms_of (several list)) + 1 };

    ghost size_decreases = { λ list _. omega (arith, most_below list.items.items) };
}

impl Shared {
    /// A shared term with this root, number and size.
    pub(crate) fn new(
        alloc: Global,
        node: SharedNode,
        number: u64,
        size: u64,
    ) -> Result<Shared, Memory>
        ensures { IfOk result (λ shared. shared ≡ view_shared number size node) }
    {
        let kept = Rc::new(alloc, Kept { node, number, size })?;
        Ok(Shared { kept })
    }

    /// The same shared term once more. It takes no memory of its own, but there may be too many copies.
    pub fn copy(&self) -> Result<Shared, Memory>
        ensures { IfOk result (λ shared. shared ≡ self.now) }
    {
        let kept = self.kept.clone()?;
        Ok(Shared { kept })
    }

    /// What the shared term is at its root.
    pub fn node(&self) -> &SharedNode
        ensures { view_shared (number_of self.now) (size_of self.now) result.now ≡ self.now }
    {
        &self.kept.node
    }

    /// The sort of the term: a variable's own, an operator's range. It takes no memory.
    pub fn sort(&self) -> &Sort
        ensures { result.now ≡ sort_of (term_of self.now) }
    {
        match self.node() {
            SharedNode::Variable(_, sort) => sort,
            SharedNode::Application(operator, _) => operator.range(),
        }
    }

    /// Its number.
    pub(crate) fn number(&self) -> u64
        ensures { result ≡ number_of self.now }
    {
        self.kept.number
    }

    /// Its size.
    pub(crate) fn size(&self) -> u64
        ensures { result ≡ size_of self.now }
    {
        self.kept.size
    }
}

impl SharedList {
    /// Nothing yet. It takes no memory.
    pub fn new(alloc: Global) -> SharedList
        ensures { result ≡ [] }
    {
        SharedList {
            items: Vec::new(alloc),
        }
    }

    /// These shared terms. It takes no memory.
    pub fn from_vec(items: Vec<Shared>) -> SharedList
        ensures { result ≡ items.items }
    {
        SharedList { items }
    }

    /// The shared terms as a vector. It takes no memory.
    pub fn into_vec(self) -> Vec<Shared>
        ensures { result.items ≡ self }
    {
        let SharedList { items } = self;
        items
    }

    /// The shared terms.
    pub fn as_slice(&self) -> &[Shared]
        ensures { result.now ≡ self.now }
    {
        self.items.as_slice()
    }

    /// Puts a shared term at the end. Where memory runs out nothing changes.
    pub fn push(&mut self, shared: Shared) -> Result<(), Memory>
        ensures ok { OnOk result (self.new ≡ self.old ++ shared ∷ []) }
        ensures err { OnErr result (self.new ≡ self.old) }
    {
        self.items.push(shared)?;
        Ok(())
    }
}
