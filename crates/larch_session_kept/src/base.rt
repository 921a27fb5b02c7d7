ghost use Rattle.std.specs.Prelude.{◌≡◌, ◌++◌, ◌∷◌, [], IfSome, OnErr, OnOk, find, map};
ghost use Rattle.std.specs.Option.{option_copied, option_map};
ghost use Rattle.larch_session_kept.specs.Kept.{IsKept, is_for, is_kept_for, limit_in, records_in, replayed_of};

use crate::kept::Kept;
use larch_base::{Label, Memory, Name, Sequence};
use larch_session_blocks::same_label;
use std::alloc::Global;
use std::marker::Model;

/// What a report keeps for the next one: a record of each duty that it replayed, in order, and the rewriting limit.
/// Contracts see the limit, and of each record what it says was replayed; that the states are those of that is kept.
#[derive(Drop)]
pub struct Base {
    limit: u32,
    kept: Sequence<Kept>,
}

impl Model for Base {
    ghost use Rattle.std.specs.Prelude.{ℕ, List, All, map};
    ghost use Rattle.larch_prove_meaning.specs.Redo.{Replayed};
    ghost use Rattle.larch_session_kept.specs.Kept.{IsKept, replayed_of};

    ghost Value = { ℕ × List Replayed };

    ghost use Rattle.std.specs.Coded.{codes};
    ghost use Rattle.larch_raw.specs.contracts.term.RawTerm as term_row;
    ghost use Rattle.larch_raw.specs.contracts.term.RawTerms as terms_row;
    ghost use Rattle.larch_term.specs.Operator.{coded_operator};
    ghost use Rattle.larch_term.specs.TreeCode.{coded_tree};

    ghost coded = { Prim.hlevel (codes, coded_operator, coded_tree, term_row.the_row.coded, terms_row.the_row.coded) };

    ghost view = { λ base. (base.limit, map replayed_of base.kept) };

    ghost invariant = { λ base. All (IsKept base.limit) base.kept };
}

impl Base {
    /// Nothing is kept, with a rewriting limit. It takes no memory.
    pub fn new(alloc: Global, limit: u32) -> Base
        ensures { result ≡ (limit, []) }
    {
        Base {
            limit,
            kept: Sequence::new(alloc),
        }
    }

    /// The rewriting limit. It takes no memory.
    pub fn limit(&self) -> u32
        ensures { result ≡ limit_in self.now }
    {
        self.limit
    }

    // The record of the duty with a label of a trait.
    pub(crate) fn find(&self, stem: &Name, label: Label) -> Option<&Kept>
        ensures found { option_map replayed_of (option_copied result)
            ≡ find (is_for stem.now label) (records_in self.now) }
        ensures kept { IfSome result (λ kept. IsKept (limit_in self.now) kept.now) }
    {
        find_kept(self.kept.as_slice(), stem, label)
    }

    // Puts the record of a duty behind the others. Where memory runs out nothing changes.
    pub(crate) fn push(&mut self, kept: Kept) -> Result<(), Memory>
        requires { IsKept (limit_in self.old) kept }
        ensures ok { OnOk result (self.new ≡ (limit_in self.old, records_in self.old ++ replayed_of kept ∷ [])) }
        ensures err { OnErr result (self.new ≡ self.old) }
    {
        self.kept.push(kept)
    }
}

// The first of these records that is of the duty with a label of a trait.
fn find_kept<'a>(kept: &'a [Kept], stem: &Name, label: Label) -> Option<&'a Kept>
    ensures { option_copied result ≡ find (is_kept_for stem.now label) kept.now }
{
    kept.iter().find(|one| stem.bytes() == one.stem.bytes() && same_label(label, one.label))
}
