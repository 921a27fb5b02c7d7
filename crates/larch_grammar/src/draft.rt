ghost use Rattle.std.specs.Prelude.{◌≡◌};

use larch_raw::RawTrait;
use std::marker::Model;

/// A trait of which so much is read. Contracts see it as that raw trait.
#[derive(Drop)]
pub struct Draft {
    pub(crate) raw: Box<RawTrait>,
}

impl Model for Draft {
    ghost use Rattle.larch_raw.specs.declared.equation.RawTrait.{RawTrait};

    ghost Value = { RawTrait };

    ghost use Rattle.std.specs.Coded.{codes};
    ghost use Rattle.larch_raw.specs.contracts.term.RawTerm as term_row;
    ghost use Rattle.larch_raw.specs.contracts.term.RawTerms as terms_row;

    ghost coded = { Prim.hlevel (codes, term_row.the_row.coded, terms_row.the_row.coded) };

    ghost view = { λ draft. draft.raw.value };
}

impl Draft {
    /// Whether an implied part stands in it.
    pub fn implies(&self) -> bool
        ensures { result ≡ self.now.implies }
    {
        self.raw.implies
    }

    /// The raw trait. It takes no memory.
    pub fn into_raw(self) -> RawTrait
        ensures { result ≡ self }
    {
        let Draft { raw } = self;
        Box::into_inner(raw)
    }
}
