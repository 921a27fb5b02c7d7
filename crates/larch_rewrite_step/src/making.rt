ghost use Rattle.std.specs.Prelude.{◌≡◌, map, IfOk, IfErr};
ghost use Rattle.larch_rewrite_match.specs.Bound.{AreBound, entries_of};
ghost use Rattle.larch_store.specs.Numbered.{term_of};
ghost use Rattle.larch_store.specs.Refusal.{MayRefuse};
ghost use Rattle.larch_store.specs.Stored.{AllBelong, Belongs, Grows};
ghost use Rattle.larch_term.specs.Substitution.{image, instance_of, substituted_all};
ghost use Rattle.larch_term.specs.Tree.{forest_of, nodes, nodes_all};

use larch_base::{Memory, Name};
use larch_rewrite_match::Bound;
use larch_store::{Shared, SharedList, Store, StoreRefusal};
use larch_term::{Node, Sort, Term};
use std::alloc::Global;

/// A term whose variables stand for what they are bound to, as a shared term. It takes time by the size of the term,
/// whatever that of what its variables stand for.
#[cycle(made)]
#[tactic(auto, using(larch_store::proofs::Growth::grows_refl, larch_store::proofs::Growth::grows_trans, larch_store::proofs::Counting::refused_above, larch_term::proofs::TreeLists::substituted_all_forest, larch_term::specs::Tree::nodes_all_is_sum))]
pub(crate) fn made<'a>(
    alloc: Global,
    store: &mut Store,
    term: &Term,
    by: &[Bound<'a>],
) -> Result<Shared, StoreRefusal>
    requires { AreBound store.old by.now }
    ensures term { IfOk result (λ x. term_of x ≡ instance_of (entries_of by.now) term.now) }
    ensures belongs { IfOk result (λ x. Belongs store.new x) }
    ensures refused { IfErr result (λ e. MayRefuse (nodes (instance_of (entries_of by.now) term.now)) e) }
    ensures grows { Grows store.old store.new }
{
    match term.node() {
        Node::Var(name, sort) => {
            let shared = image(store, by, name, sort)?;
            Ok(shared)
        }
        Node::App(operator, arguments) => {
            let children = made_all(alloc, store, arguments.as_slice(), by)?;
            let shared = store.apply(operator, &children)?;
            Ok(shared)
        }
    }
}

#[cycle(made)]
#[tactic(auto, using(larch_store::proofs::Growth::grows_refl, larch_store::proofs::Growth::grows_trans, larch_term::specs::Tree::nodes_all_is_sum))]
fn made_all<'a>(
    alloc: Global,
    store: &mut Store,
    terms: &[Term],
    by: &[Bound<'a>],
) -> Result<SharedList, StoreRefusal>
    requires { AreBound store.old by.now }
    ensures terms { IfOk result (λ list. map term_of list ≡ map (instance_of (entries_of by.now)) terms.now) }
    ensures belong { IfOk result (λ list. AllBelong store.new list) }
    ensures refused { IfErr result
        (λ e. MayRefuse (nodes_all (substituted_all (entries_of by.now) (forest_of terms.now))) e) }
    ensures grows { Grows store.old store.new }
{
    let mut list = SharedList::new(alloc);
    for term in terms {
        let shared = made(alloc, store, term, by)?;
        list.push(shared)?;
    }
    Ok(list)
}

// What a variable stands for: itself where it isn't bound.
#[tactic(auto, using(larch_store::proofs::Growth::grows_refl))]
fn image<'a>(
    store: &mut Store,
    by: &[Bound<'a>],
    name: &Name,
    sort: &Sort,
) -> Result<Shared, Memory>
    requires { AreBound store.old by.now }
    ensures term { IfOk result (λ x. term_of x ≡ image (entries_of by.now) name.now sort.now) }
    ensures belongs { IfOk result (λ x. Belongs store.new x) }
    ensures grows { Grows store.old store.new }
{
    for bound in by {
        if *bound.name == *name && *bound.sort == *sort {
            let term = bound.term.copy()?;
            return Ok(term);
        }
    }
    let variable = store.variable(name, sort)?;
    Ok(variable)
}
