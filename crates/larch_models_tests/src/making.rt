use larch_base::{Memory, Sequence};
use larch_models::{ModelRefusal, read_model};
use larch_models_meaning::FiniteModel;
use larch_term::Theory;
use larch_theory_text::{read_operators, read_statements};
use std::alloc::Global;

// The theory that texts say; none where one is wrong.
pub(crate) fn theory_of(
    alloc: Global,
    operators: &[u8],
    statements: &[u8],
) -> Result<Option<Theory>, Memory> {
    let Some(operators) = read_operators(alloc, operators)? else {
        return Ok(None);
    };
    let Some(statements) = read_statements(alloc, &operators, statements)? else {
        return Ok(None);
    };
    let statements = Sequence::from_vec(statements);
    Ok(Some(Theory {
        operators,
        statements,
    }))
}

// The line at which a text is refused as a model; 0 where it is one.
pub(crate) fn refusal(alloc: Global, theory: &Theory, text: &[u8]) -> Result<u64, Memory> {
    match read_model(alloc, theory, text) {
        Ok(_) => Ok(0),
        Err(ModelRefusal::Form(line)) => Ok(line),
        Err(ModelRefusal::Memory) => Err(Memory),
    }
}

// The model that a text is, if it is one.
pub(crate) fn model_of(
    alloc: Global,
    theory: &Theory,
    text: &[u8],
) -> Result<Option<FiniteModel>, Memory> {
    match read_model(alloc, theory, text) {
        Ok(model) => Ok(Some(model)),
        Err(ModelRefusal::Form(_)) => Ok(None),
        Err(ModelRefusal::Memory) => Err(Memory),
    }
}
