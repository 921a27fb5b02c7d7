ghost use Rattle.std.specs.Prelude.{◌≡◌, ◌<◌, [], IfOk, IfSome};
ghost use denote.Param.Weighed.{most};
ghost use Rattle.larch_certificate.specs.declared.coded.Coded.TheDeep.{size-Coded as size_Coded};
ghost use Rattle.larch_certificate.specs.Coded.{CodedTree, coded_var, coded_app, coded_forest_of};
ghost use Rattle.larch_certificate.specs.CodedView.{view_coded};

use crate::symbol::Symbol;
use larch_term::Sort;
use larch_term::from_base::{Memory, Name};
use std::marker::Model;
use std::rc::Rc;

/// A term as a certificate writes it: a variable, or a symbol with arguments. It may be of any depth, and it need
/// not be well sorted. Its copies share the arguments. Contracts see it as a plain tree.
#[cycle(coded)]
#[derive(Drop)]
pub struct Coded {
    node: CodedNode,
}

/// What a term is at its root.
#[cycle(coded)]
#[derive(Drop)]
pub enum CodedNode {
    /// A variable: its name and sort.
    Var(Name, Sort),
    /// A symbol with its arguments.
    App(Symbol, CodedTerms),
}

/// The arguments of a symbol, in order, which their copies share. Where there are none they take no memory.
#[cycle(coded)]
pub struct CodedTerms {
    items: Option<Rc<Vec<Coded>>>,
}

impl Model for Coded {
    ghost use Rattle.larch_certificate.specs.Coded.{CodedTree, coded_nodes};
    ghost use Rattle.larch_certificate.specs.CodedCode.{coded_coded_tree};

    ghost Value = { CodedTree };

    ghost coded = { coded_coded_tree };

    ghost use Rattle.std.specs.Prelude.{◌*◌};
    ghost use Rattle.larch_certificate.specs.CodedView.{view_coded};

    ghost view = { λ term. view_coded term.node };

    ghost size = { λ tree. 2 * coded_nodes tree };

    ghost use Rattle.larch_certificate.specs.CodedFalls.{coded_node_falls};

    ghost size_decreases = { λ term _. coded_node_falls term.node };
}

impl Model for CodedTerms {
    ghost use Rattle.std.specs.Prelude.{List, ◌*◌, ◌+◌};
    ghost use Rattle.std.proofs.Common.{arith};
    ghost use Rattle.std.specs.Coded.{coded_list};
    ghost use Rattle.larch_certificate.specs.CodedCode.{coded_coded_tree};
    ghost use Rattle.larch_certificate.specs.Coded.{CodedTree, coded_forest_of, coded_nodes_all};
    ghost use Rattle.larch_certificate.specs.CodedListFalls.{shared_below};

    ghost Value = { List CodedTree };

    ghost coded = { coded_list coded_coded_tree };

    ghost use Rattle.larch_certificate.specs.CodedItems.{items_by};

    ghost view = { λ terms. items_by (λ shared. shared.value.items) terms.items };

    ghost size = { λ trees. 2 * coded_nodes_all (coded_forest_of trees) + 1 };

    ghost size_decreases = { λ terms _. omega (arith, shared_below terms.items) };
}

impl Coded {
    /// The variable with this name and sort.
    pub fn var(name: Name, sort: Sort) -> Coded
        ensures { result ≡ coded_var name sort }
    {
        Coded {
            node: CodedNode::Var(name, sort),
        }
    }

    /// The symbol with these arguments.
    pub fn app(symbol: Symbol, arguments: CodedTerms) -> Coded
        ensures { result ≡ coded_app symbol (coded_forest_of arguments) }
    {
        Coded {
            node: CodedNode::App(symbol, arguments),
        }
    }

    /// The same term once more. It takes no memory of its own, but there may be too many copies.
    pub fn copy(&self) -> Result<Coded, Memory>
        ensures { IfOk result (λ term. term ≡ self.now) }
    {
        match &self.node {
            CodedNode::Var(name, sort) => {
                let name = name.copy()?;
                let sort = sort.copy()?;
                Ok(Coded::var(name, sort))
            }
            CodedNode::App(symbol, arguments) => {
                let arguments = arguments.copy()?;
                Ok(Coded::app(*symbol, arguments))
            }
        }
    }

    /// What the term is at its root.
    pub fn node(&self) -> &CodedNode
        ensures { view_coded result.now ≡ self.now }
    {
        &self.node
    }
}

impl CodedTerms {
    /// No arguments. It takes no memory.
    pub fn none() -> CodedTerms
        ensures { result ≡ [] }
    {
        CodedTerms { items: None }
    }

    /// These arguments.
    pub fn from_vec(items: Vec<Coded>) -> Result<CodedTerms, Memory>
        ensures { IfOk result (λ terms. terms ≡ items.items) }
    {
        if items.is_empty() {
            return Ok(CodedTerms::none());
        }
        let alloc = *items.allocator();
        let items = Rc::new(alloc, items)?;
        Ok(CodedTerms { items: Some(items) })
    }

    /// The same arguments once more. They take no memory of their own, but there may be too many copies.
    pub fn copy(&self) -> Result<CodedTerms, Memory>
        ensures { IfOk result (λ terms. terms ≡ self.now) }
    {
        match &self.items {
            Some(items) => {
                let items = items.clone()?;
                Ok(CodedTerms { items: Some(items) })
            }
            None => Ok(CodedTerms::none()),
        }
    }

    /// The arguments.
    pub fn as_slice(&self) -> &[Coded]
        ensures { result.now ≡ self.now }
    {
        match &self.items {
            Some(items) => items.as_slice(),
            None => &[],
        }
    }

    // The arguments as a vector, if there are some and no copy of them is left.
    fn into_unshared(self) -> Option<Vec<Coded>>
        ensures { IfSome result (λ ts. ts.items ≡ self) }
    {
        let CodedTerms { items } = self;
        match items {
            Some(items) => Rc::into_inner(items),
            None => None,
        }
    }
}

// Takes the terms that no copy shares apart one by one, so that a term of any depth can be dropped. Only out of
// memory are the arguments of a term dropped by recursion.
impl Drop for CodedTerms {
    #[cycle(drops)]
    #[tactic(auto, using(crate::proofs::Deepest::most_joined, crate::proofs::Deepest::most_below, crate::proofs::Deepest::size_coded, crate::proofs::Deepest::size_coded_terms))]
    fn drop(self) {
        let Some(mut work) = self.into_unshared() else {
            return;
        };
        for _ in 0..u64::MAX {
            let Some(term) = work.pop() else {
                return;
            };
            if let Some(further) = arguments_of(term) {
                let mut further = further;
                let _ = work.append(&mut further);
            }
        }
    }
}

fn arguments_of(term: Coded) -> Option<Vec<Coded>>
    ensures { IfSome result (λ ts. most size_Coded ts.items < size_Coded term) }
{
    match term.node {
        CodedNode::Var(_name, _sort) => None,
        CodedNode::App(_symbol, arguments) => arguments.into_unshared(),
    }
}
