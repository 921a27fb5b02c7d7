ghost use Rattle.std.specs.Prelude.{◌≡◌, length, AllPairs, false, [], if◌then◌else◌, Some, None, IfOk, IfSome, map, option_map};
ghost use Rattle.larch_rewrite_meaning.specs.Matching.{bound as binding, match_term, matched_all};
ghost use Rattle.larch_rewrite_match.specs.Bound.{AreBound, IsBinding, entries_of, entry_of};
ghost use Rattle.larch_store.specs.Numbered.{term_of};
ghost use Rattle.larch_store.specs.Stored.{AllBelong, Belongs};
ghost use Rattle.larch_term.specs.Equality.{same_tree};
ghost use Rattle.larch_term.specs.Substitution.{is_entry_of};
ghost use Rattle.larch_term.specs.Tree.{forest_of};

use larch_base::{Memory, Name, Sequence};
use larch_pairs::substitution_of;
use larch_store::{Shared, SharedNode, Store};
use larch_term::{Entry, Node, Sort, Substitution, Term};
use std::alloc::Global;

/// A variable of a pattern, and the shared term that it stands for.
#[derive(Drop)]
pub struct Bound<'a> {
    pub name: &'a Name,
    pub sort: &'a Sort,
    pub term: Shared,
}

/// What the variables of a pattern stand for, the last one first.
pub type MatchBindings<'a> = Sequence<Bound<'a>>;

/// The bindings that make a pattern the term, if there are such. A variable matches terms of its sort, at each place
/// the same one. It takes time by the size of the pattern, whatever that of the term.
#[tactic(auto, using(crate::proofs::Apart::none_bound))]
pub fn matching<'a>(
    alloc: Global,
    store: &Store,
    pattern: &'a Term,
    term: &Shared,
) -> Result<Option<MatchBindings<'a>>, Memory>
    requires { Belongs store.now term.now }
    ensures found { IfOk result (λ found. match_term pattern.now (term_of term.now) [] ≡ option_map entries_of found) }
    ensures bound { IfOk result (λ found. IfSome found (IsBinding store.now)) }
{
    let mut bound = Vec::new(alloc);
    if !matches(store, pattern, term, &mut bound)? {
        return Ok(None);
    }
    Ok(Some(Sequence::from_vec(bound)))
}

/// The substitution that bindings are, with their terms written out.
pub fn written_substitution<'a>(
    alloc: Global,
    store: &Store,
    bound: &[Bound<'a>],
) -> Result<Substitution, Memory>
    requires { AllPairs (λ d e. is_entry_of e.name e.sort d ≡ false) (entries_of bound.now) }
    ensures { IfOk result (λ by. by ≡ entries_of bound.now) }
{
    let mut entries = Sequence::new(alloc);
    for binding in bound {
        let entry = entry(store, binding)?;
        entries.push(entry)?;
    }
    let by = substitution_of(alloc, entries)?;
    Ok(by)
}

fn entry<'a>(store: &Store, bound: &Bound<'a>) -> Result<Entry, Memory>
    ensures { IfOk result (λ entry. entry ≡ entry_of bound.now) }
{
    let name = bound.name.copy()?;
    let sort = bound.sort.copy()?;
    let term = store.to_term(&bound.term)?;
    Ok(Entry { name, sort, term })
}

// Whether bindings can be extended so that a pattern is the term; they then are. Else they may be extended in part.
#[cycle(matches)]
#[tactic(auto, using(larch_term::specs::Tree::nodes_all_is_sum, crate::proofs::Shares::variable_apart, crate::proofs::Shares::other_head, crate::proofs::Shares::other_count, crate::proofs::Shares::by_arguments, crate::proofs::Shares::arguments_belong))]
fn matches<'a>(
    store: &Store,
    pattern: &'a Term,
    term: &Shared,
    bound: &mut Vec<Bound<'a>>,
) -> Result<bool, Memory>
    requires term { Belongs store.now term.now }
    requires bound { AreBound store.now bound.old.items }
    ensures bound { AreBound store.now bound.new.items }
    ensures fits { IfOk result (λ yes. match_term pattern.now (term_of term.now) (entries_of bound.old.items)
        ≡ (if yes then Some (entries_of bound.new.items) else None)) }
{
    store.children_belong();
    match (pattern.node(), term.node()) {
        (Node::Var(name, sort), _) => {
            if *term.sort() != *sort {
                return Ok(false);
            }
            let fits = bind(store, name, sort, term, bound)?;
            Ok(fits)
        }
        (Node::App(_, _), SharedNode::Variable(_, _)) => Ok(false),
        (Node::App(operator, patterns), SharedNode::Application(other, terms)) => {
            let patterns = patterns.as_slice();
            let terms = terms.as_slice();
            if operator != other || patterns.len() != terms.len() {
                return Ok(false);
            }
            let fit = match_all(store, patterns, terms, bound)?;
            Ok(fit)
        }
    }
}

#[cycle(matches)]
#[tactic(auto, using(larch_term::specs::Tree::nodes_all_is_sum))]
fn match_all<'a>(
    store: &Store,
    patterns: &'a [Term],
    terms: &[Shared],
    bound: &mut Vec<Bound<'a>>,
) -> Result<bool, Memory>
    requires count { length patterns.now ≡ length terms.now }
    requires terms { AllBelong store.now terms.now }
    requires bound { AreBound store.now bound.old.items }
    ensures bound { AreBound store.now bound.new.items }
    ensures fits { IfOk result (λ yes.
        matched_all (forest_of patterns.now) (forest_of (map term_of terms.now)) (entries_of bound.old.items)
        ≡ (if yes then Some (entries_of bound.new.items) else None)) }
{
    for i in 0..patterns.len() {
        if !matches(store, &patterns[i], &terms[i], bound)? {
            return Ok(false);
        }
    }
    Ok(true)
}

// Binds a variable to a term, unless it is bound to another one.
#[tactic(auto, using(crate::proofs::Shares::bound_more))]
fn bind<'a>(
    store: &Store,
    name: &'a Name,
    sort: &'a Sort,
    term: &Shared,
    bound: &mut Vec<Bound<'a>>,
) -> Result<bool, Memory>
    requires term { Belongs store.now term.now }
    requires bound { AreBound store.now bound.old.items }
    ensures bound { AreBound store.now bound.new.items }
    ensures fits { IfOk result (λ yes.
        binding (entries_of bound.old.items) name.now sort.now (term_of term.now) (entries_of bound.old.items)
        ≡ (if yes then Some (entries_of bound.new.items) else None)) }
{
    for entry in bound.as_slice() {
        if *entry.name == *name && *entry.sort == *sort {
            return Ok(is_same(store, &entry.term, term));
        }
    }
    let term = term.copy()?;
    bound.insert(0, Bound { name, sort, term })?;
    Ok(true)
}

fn is_same(store: &Store, left: &Shared, right: &Shared) -> bool
    requires left { Belongs store.now left.now }
    requires right { Belongs store.now right.now }
    ensures { result ≡ same_tree (term_of left.now) (term_of right.now) }
{
    store.same(left, right)
}
