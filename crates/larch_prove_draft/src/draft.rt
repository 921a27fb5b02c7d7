ghost use Rattle.std.specs.Prelude.{◌≡◌, ◌++◌, ◌∷◌, [], List, OnOk, if◌then◌else◌, IfOk};
ghost use Rattle.larch_prove_draft.specs.Draft.{IsProofOf};
ghost use Rattle.larch_prove_levels.specs.ProveMeaningLevels.{Proof};
ghost use Rattle.larch_store.specs.Numbered.{Numbered};
ghost use Rattle.larch_term.specs.declared.statement.Statement.{Statement};
ghost use Rattle.larch_term.specs.declared.statement.Theory.{Theory};

use larch_base::Memory;
use larch_prove_levels::Level;
use larch_prove_levels::from_derive::Builder;
use larch_store::share_layers;
use std::alloc::Global;
use std::rc::Rc;

/// A proof as a command works on it: what a command makes goes away with it where the command is refused.
pub struct Draft {
    pub builder: Builder,
    pub current: Level,
    /// The levels below the current one, the nearest last.
    pub below: Vec<Rc<Level>>,
    pub is_proved: bool,
    /// Whether boxes are checked.
    pub checking: bool,
    /// The marks that wait, proved ones being true.
    pub waiting: Vec<bool>,
    /// The number of the next hypothesis.
    pub next_hypothesis: u64,
    /// The number of the next fact that a command derives.
    pub next_derived: u64,
}

// By a call, so that a proof takes one apart in one place alone.
impl Drop for Draft {
    fn drop(self) {
        let Draft {
            builder: _builder,
            current: _current,
            below: _below,
            is_proved: _is_proved,
            checking: _checking,
            waiting: _waiting,
            next_hypothesis: _next_hypothesis,
            next_derived: _next_derived,
        } = self;
    }
}

impl Draft {
    /// The same draft once more. The two share the levels below, the facts, the terms and the lines.
    pub fn copy(&self, alloc: Global) -> Result<Draft, Memory>
        ensures { IfOk result (λ draft. (t : Theory) (s : Statement) (store : List Numbered) (p : Proof)
            → IsProofOf t s store self.now p → IsProofOf t s store draft p) }
    {
        let builder = self.builder.copy()?;
        let current = self.current.copy(alloc)?;
        let below = share_layers(alloc, &self.below)?;
        let waiting = Vec::from_slice(alloc, &self.waiting)?;
        Ok(Draft {
            builder,
            current,
            below,
            is_proved: self.is_proved,
            checking: self.checking,
            waiting,
            next_hypothesis: self.next_hypothesis,
            next_derived: self.next_derived,
        })
    }
}

/// One mark more waits, where boxes are checked.
pub fn mark(checking: bool, waiting: &mut Vec<bool>, is_proved: bool) -> Result<(), Memory>
    ensures { OnOk result (waiting.new.items
        ≡ (if checking then waiting.old.items ++ is_proved ∷ [] else waiting.old.items)) }
{
    if checking {
        waiting.push(is_proved)?;
    }
    Ok(())
}
