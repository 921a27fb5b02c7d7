ghost use Rattle.std.specs.Prelude.{◌≡◌, ◌↔◌, IsTrue, map, option_map};
ghost use Rattle.larch_script_commands.specs.Bare.{bare_equation, bare_right, bare_tree, bare_word};

use larch_raw::{RawEquation, RawNode, RawRight, RawTerm, RawTerms, RawWord};

/// Whether two words have one text.
pub(crate) fn same_word(left: &RawWord, right: &RawWord) -> bool
    ensures { IsTrue result ↔ (bare_word left.now ≡ bare_word right.now) }
{
    left.name == right.name
}

/// Whether two lists of words have the same texts.
pub(crate) fn same_words(left: &[RawWord], right: &[RawWord]) -> bool
    ensures { IsTrue result ↔ (map bare_word left.now ≡ map bare_word right.now) }
{
    if left.len() != right.len() {
        return false;
    }
    for i in 0..left.len() {
        if !same_word(&left[i], &right[i]) {
            return false;
        }
    }
    true
}

// Whether two written terms are equal. A level needs less than 1,000 bytes of stack; a term that was read is at most
// 5,000 deep.
#[cycle(same)]
#[tactic(auto, using(crate::proofs::TreeLists::same_parts, crate::proofs::TreeLists::same_whole, larch_raw::specs::RawTree::raw_nodes_all_is_sum))]
fn same_term(left: &RawTerm, right: &RawTerm) -> bool
    ensures { IsTrue result ↔ (bare_tree left.now ≡ bare_tree right.now) }
{
    match (left.node(), right.node()) {
        (RawNode::Apply(name, arguments, _pos), RawNode::Apply(other, others, _other_pos)) => {
            name == other && same_terms(arguments, others)
        }
        (RawNode::Qualified(term, sort, _pos), RawNode::Qualified(other, other_sort, _other_pos)) =>
            { same_term(term, other) && same_word(sort, other_sort) }
        _ => false,
    }
}

// The same of arguments.
#[cycle(same)]
#[tactic(auto, using(larch_raw::specs::RawTree::raw_nodes_all_is_sum))]
fn same_terms(left: &RawTerms, right: &RawTerms) -> bool
    ensures { IsTrue result ↔ (map bare_tree left.now ≡ map bare_tree right.now) }
{
    let terms = left.as_slice();
    let others = right.as_slice();
    if terms.len() != others.len() {
        return false;
    }
    for i in 0..terms.len() {
        if !same_term(&terms[i], &others[i]) {
            return false;
        }
    }
    true
}

fn same_right(left: &Option<RawRight>, right: &Option<RawRight>) -> bool
    ensures { IsTrue result ↔ (option_map bare_right left.now ≡ option_map bare_right right.now) }
{
    match (left, right) {
        (Some(side), Some(other)) => same_term(&side.term, &other.term),
        (None, None) => true,
        _ => false,
    }
}

/// Whether two written equations are equal.
pub(crate) fn same_equation(left: &RawEquation, right: &RawEquation) -> bool
    ensures { IsTrue result ↔ (bare_equation left.now ≡ bare_equation right.now) }
{
    same_term(&left.left, &right.left) && same_right(&left.right, &right.right)
}
