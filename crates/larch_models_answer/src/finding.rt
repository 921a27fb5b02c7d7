ghost use Rattle.std.specs.Prelude.{◌≡◌, IfOk};
ghost use Rattle.larch_models_answer.specs.Judgements.{ending_of, found};

use larch_base::{Bytes, Memory};
use std::alloc::Global;

/// What is found of a model: a text, and how it ends.
#[derive(Drop)]
pub struct Finding {
    pub text: Bytes,
    pub ending: Ending,
}

/// How a finding ends.
#[derive(Clone, Copy, Debug, PartialEq, Eq)]
pub enum Ending {
    /// The text is a model in which all claims hold.
    Holds,
    /// The text is no model of the theory, or some claim doesn't hold in it.
    Fails,
    /// The text is outside the grammar.
    Malformed,
    /// Some statement has too many assignments.
    TooLarge,
}

/// This text and this ending.
pub(crate) fn found(alloc: Global, words: &[u8], ending: Ending) -> Result<Finding, Memory>
    ensures { IfOk result (λ finding. finding ≡ found words.now ending) }
{
    let mut text = Bytes::new(alloc);
    text.append(words)?;
    Ok(Finding { text, ending })
}

/// Whether all holds, as an ending.
pub(crate) fn ending_of(all: bool) -> Ending
    ensures { result ≡ ending_of all }
{
    if all { Ending::Holds } else { Ending::Fails }
}
