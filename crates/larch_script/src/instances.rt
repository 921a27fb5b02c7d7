ghost use Rattle.std.specs.Prelude.{◌≡◌, ◌+◌, ◌≤◌, ◌<◌, ◌^◌, IfOk, IfSome, length, option_map};
ghost use Rattle.larch_script.specs.Instances.{instance_at, instance_of, instances_at, instantiation};
ghost use Rattle.larch_script.specs.Terms.{term_at};

use crate::facts::whole_fact_at;
use crate::terms::term_at;
use crate::tokens::{says, word_at};
use larch_base::{Memory, Sequence};
use larch_lexer::Tokens;
use larch_raw::RawWord;
use larch_script_commands::{CommandKind, RawInstance, RawInstances};
use std::alloc::Global;

/// `instantiate x by T, y by U in FACT`.
pub(crate) fn instantiation(alloc: Global, tokens: &Tokens) -> Result<Option<CommandKind>, Memory>
    ensures { IfOk result (λ kind. kind ≡ instantiation tokens.now) }
{
    match instances_at(alloc, tokens)? {
        Some((instances, index)) => {
            let fact = whole_fact_at(tokens.as_slice(), index);
            Ok(fact.map(|fact| CommandKind::Instantiate(instances, fact)))
        }
        None => Ok(None),
    }
}

// The instances between commas, then `in`; with the index after that.
#[tactic(auto, using(crate::proofs::Turns::turn_on, crate::proofs::Turns::last_turn, crate::proofs::Turns::behind_both))]
fn instances_at(alloc: Global, tokens: &Tokens) -> Result<Option<(RawInstances, usize)>, Memory>
    ensures found { IfOk result (λ found. found ≡ instances_at (length tokens.now.tokens) tokens.now 1) }
    ensures small { IfOk result (λ found. IfSome found (λ behind. behind.1 ≤ 2 ^ 32)) }
{
    let all = tokens.as_slice();
    let mut instances = Sequence::new(alloc);
    let mut index: usize = 1;
    for _turn in 0..all.len() {
        let Some((instance, behind)) = instance_at(alloc, tokens, index)? else {
            return Ok(None);
        };
        instances.push(instance)?;
        if says(all, behind, b",") {
            index = behind + 1;
        } else if says(all, behind, b"in") {
            return Ok(Some((instances, behind + 1)));
        } else {
            return Ok(None);
        }
    }
    Ok(None)
}

// A variable, `by` and a term, with the index after them.
fn instance_at(
    alloc: Global,
    tokens: &Tokens,
    index: usize,
) -> Result<Option<(RawInstance, usize)>, Memory>
    requires { index + 2 < 2 ^ 64 }
    ensures found { IfOk result (λ found. found ≡ instance_at tokens.now index) }
    ensures small { IfOk result (λ found. IfSome found (λ behind. behind.1 < 2 ^ 32)) }
{
    let Some(name) = word_at(tokens.as_slice(), index)? else {
        return Ok(None);
    };
    if says(tokens.as_slice(), index + 1, b"by") {
        with_term(alloc, tokens, name, index + 2)
    } else {
        Ok(None)
    }
}

// The instance of this variable by the term at this index.
fn with_term(
    alloc: Global,
    tokens: &Tokens,
    name: RawWord,
    index: usize,
) -> Result<Option<(RawInstance, usize)>, Memory>
    ensures found { IfOk result (λ found. found ≡ option_map (instance_of name) (term_at tokens.now index)) }
    ensures small { IfOk result (λ found. IfSome found (λ behind. behind.1 < 2 ^ 32)) }
{
    match term_at(alloc, tokens, index)? {
        Some((term, behind)) => Ok(Some((RawInstance { name, term }, behind))),
        None => Ok(None),
    }
}
