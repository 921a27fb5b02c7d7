ghost use Rattle.std.specs.Prelude.{◌≡◌, map, IfOk, IfErr};
ghost use Rattle.larch_term.specs.Tree.{nodes, nodes_all, forest_of};
ghost use Rattle.larch_store.specs.Numbered.{term_of};
ghost use Rattle.larch_store.specs.Refusal.{MayRefuse};
ghost use Rattle.larch_store.specs.Stored.{Belongs, AllBelong, Grows};

use crate::refusal::StoreRefusal;
use crate::shared::{Shared, SharedList};
use crate::store::Store;
use larch_term::{Node, Term, Terms};

/// The shared term that is a term. It goes down the term by recursion.
#[cycle(intern)]
#[tactic(auto, using(crate::proofs::Growth::grows_refl, crate::proofs::Growth::grows_trans, crate::proofs::Counting::refused_above, larch_term::specs::Tree::nodes_all_is_sum))]
pub fn intern_term(store: &mut Store, term: &Term) -> Result<Shared, StoreRefusal>
    ensures term { IfOk result (λ shared. term_of shared ≡ term.now) }
    ensures belongs { IfOk result (λ shared. Belongs store.new shared) }
    ensures refused { IfErr result (λ refusal. MayRefuse (nodes term.now) refusal) }
    ensures grows { Grows store.old store.new }
{
    match term.node() {
        Node::Var(name, sort) => {
            let shared = store.variable(name, sort)?;
            Ok(shared)
        }
        Node::App(operator, arguments) => {
            let children = intern_terms(store, arguments)?;
            let shared = store.apply(operator, &children)?;
            Ok(shared)
        }
    }
}

#[cycle(intern)]
#[tactic(auto, using(crate::proofs::Growth::grows_refl, crate::proofs::Growth::grows_trans, crate::proofs::Counting::refused_above, larch_term::specs::Tree::nodes_all_is_sum))]
fn intern_terms(store: &mut Store, terms: &Terms) -> Result<SharedList, StoreRefusal>
    ensures terms { IfOk result (λ list. map term_of list ≡ terms.now) }
    ensures belong { IfOk result (λ list. AllBelong store.new list) }
    ensures refused { IfErr result (λ refusal. MayRefuse (nodes_all (forest_of terms.now)) refusal) }
    ensures grows { Grows store.old store.new }
{
    let mut list = SharedList::new(store.allocator());
    for term in terms.as_slice() {
        let shared = intern_term(store, term)?;
        list.push(shared)?;
    }
    Ok(list)
}
