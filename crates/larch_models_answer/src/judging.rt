ghost use Rattle.std.specs.Prelude.{◌≡◌, ◌<◌, ◌&&◌, ◌^◌, length, IfOk};
ghost use Rattle.std.specs.List.{list_all};
ghost use Rattle.larch_models_meaning.specs.FiniteModel.{interpretation_of};
ghost use Rattle.larch_models_answer.specs.Judgements.{claims_finding, failing_finding, is_small, judge, judge_model};
ghost use Rattle.larch_models_answer.specs.Judgements.{malformed_finding};

use crate::claim::{Kind, append_claims};
use crate::finding::{Ending, Finding, ending_of, found};
use larch_base::{Bytes, Memory};
use larch_models::{ModelAnswer, ModelRefusal, check_model, fits, read_model};
use larch_models_meaning::FiniteModel;
use larch_term::{Statement, Theory};
use std::alloc::Global;

/// What is found where a text is looked at as a model of a theory, and claims are tried in it: first whether the text
/// is in the grammar, then whether each statement has few enough assignments, then whether the theory's hold.
#[tactic(auto, using(crate::proofs::Findings::text_read, crate::proofs::Findings::text_refused))]
pub fn judge_model(
    alloc: Global,
    theory: &Theory,
    assumed: &[Statement],
    implied: &[Statement],
    text: &[u8],
) -> Result<Finding, Memory>
    requires assumed { length assumed.now < 2 ^ 32 }
    requires implied { length implied.now < 2 ^ 32 }
    ensures { IfOk result (λ finding. finding ≡ judge_model theory.now assumed.now implied.now text.now) }
{
    match read_model(alloc, theory, text) {
        Ok(model) => judge(alloc, &model, theory, assumed, implied),
        Err(ModelRefusal::Form(line)) => refusal(alloc, line),
        Err(ModelRefusal::Memory) => Err(Memory),
    }
}

// The same of a model.
fn judge(
    alloc: Global,
    model: &FiniteModel,
    theory: &Theory,
    assumed: &[Statement],
    implied: &[Statement],
) -> Result<Finding, Memory>
    requires assumed { length assumed.now < 2 ^ 32 }
    requires implied { length implied.now < 2 ^ 32 }
    ensures { IfOk result (λ finding. finding ≡ judge model.now theory.now assumed.now implied.now) }
{
    if !are_small(alloc, model, theory.statements.as_slice())?
        || !are_small(alloc, model, assumed)?
        || !are_small(alloc, model, implied)?
    {
        return found(alloc, b"too large\n", Ending::TooLarge);
    }
    match check_model(alloc, theory, model)? {
        ModelAnswer::Model => judge_claims(alloc, model, assumed, implied),
        ModelAnswer::Fails(number) => failing(alloc, number),
    }
}

// Whether each statement has few enough assignments.
fn are_small(alloc: Global, model: &FiniteModel, statements: &[Statement]) -> Result<bool, Memory>
    ensures { IfOk result (λ answer. answer ≡ list_all (is_small model.now) statements.now) }
{
    for statement in statements {
        if !is_small(alloc, model, statement)? {
            return Ok(false);
        }
    }
    Ok(true)
}

// Whether a statement has few enough assignments.
fn is_small(alloc: Global, model: &FiniteModel, statement: &Statement) -> Result<bool, Memory>
    ensures { IfOk result (λ answer. answer ≡ is_small model.now statement.now) }
{
    fits(alloc, model, statement)
}

// What is found of claims in a model of the theory.
fn judge_claims(
    alloc: Global,
    model: &FiniteModel,
    assumed: &[Statement],
    implied: &[Statement],
) -> Result<Finding, Memory>
    requires assumed { length assumed.now < 2 ^ 32 }
    requires implied { length implied.now < 2 ^ 32 }
    ensures { IfOk result (λ finding. finding ≡ claims_finding (interpretation_of model.now) assumed.now implied.now) }
{
    let mut text = Bytes::new(alloc);
    text.append(b"model\n")?;
    let first = append_claims(alloc, model, Kind::Assumed, assumed, &mut text)?;
    let second = append_claims(alloc, model, Kind::Implied, implied, &mut text)?;
    text.append(b"end\n")?;
    let ending = ending_of(first && second);
    Ok(Finding { text, ending })
}

// The statement with this number doesn't hold.
fn failing(alloc: Global, number: u64) -> Result<Finding, Memory>
    ensures { IfOk result (λ finding. finding ≡ failing_finding number) }
{
    let text = format!(in alloc; "fails {number}\n")?;
    found(alloc, text.as_bytes(), Ending::Fails)
}

// The text is no model from this line on.
fn refusal(alloc: Global, line: u64) -> Result<Finding, Memory>
    ensures { IfOk result (λ finding. finding ≡ malformed_finding line) }
{
    let text = format!(in alloc; "malformed at line {line}\n")?;
    found(alloc, text.as_bytes(), Ending::Malformed)
}
