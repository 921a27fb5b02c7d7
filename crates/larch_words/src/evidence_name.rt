ghost use Rattle.std.specs.Prelude.{◌≡◌, IfOk};

use larch_base::Memory;
use std::alloc::Global;
use std::marker::Model;

/// The name of a file with a certificate or a model. Contracts see it as its bytes.
#[derive(Drop)]
pub struct EvidenceName {
    text: String,
}

impl Model for EvidenceName {
    ghost use Rattle.std.specs.Prelude.{List, ℕ, string_bytes};

    ghost Value = { List ℕ };

    ghost view = { λ name. string_bytes name.text };
}

impl EvidenceName {
    // The name that a word is.
    pub(crate) fn new(alloc: Global, word: &str) -> Result<EvidenceName, Memory>
        ensures { IfOk result (λ name. name ≡ word.now) }
    {
        let text = String::from_str(alloc, word)?;
        Ok(EvidenceName { text })
    }

    /// The name as a text. It takes no memory.
    pub fn text(&self) -> &str
        ensures { result.now ≡ self.now }
    {
        self.text.as_str()
    }
}
