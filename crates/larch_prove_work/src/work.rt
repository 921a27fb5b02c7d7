ghost use Rattle.std.specs.Prelude.{IfOk};
ghost use Rattle.larch_prove_settings.specs.ProveMeaningLevels.{Proof};
ghost use Rattle.larch_prove_work.specs.Work.{IsWorkOf};
ghost use Rattle.larch_term.specs.declared.statement.Statement.{Statement as is_statement};
ghost use Rattle.larch_term.specs.declared.statement.Theory.{Theory as is_theory};

use larch_base::Memory;
use larch_prove_settings::Settings;
use larch_prove_settling::from_prove_draft::Draft;
use larch_store::Store;
use larch_term::{Statement, Theory};
use std::alloc::Global;

/// What is to be proved, and over what.
pub struct Claim {
    /// The theory, with what the lemmas state behind its own statements.
    pub theory: Theory,
    pub statement: Statement,
}

// By a call, so that a proof takes one apart in one place alone.
impl Drop for Claim {
    fn drop(self) {
        let Claim {
            theory: _theory,
            statement: _statement,
        } = self;
    }
}

/// What commands work on: what they can name and set, shared terms, and the proof as it stands.
pub struct Work {
    pub settings: Settings,
    pub store: Store,
    pub draft: Draft,
}

// By a call, so that a proof takes one apart in one place alone.
impl Drop for Work {
    fn drop(self) {
        let Work {
            settings: _settings,
            store: _store,
            draft: _draft,
        } = self;
    }
}

impl Work {
    /// The same once more. What is later done to one isn't done to the other.
    pub fn copy(&self, alloc: Global) -> Result<Work, Memory>
        ensures { IfOk result (λ work. (t : is_theory) (s : is_statement) (p : Proof)
            → IsWorkOf t s self.now p → IsWorkOf t s work p) }
    {
        let settings = self.settings.copy()?;
        let store = self.store.copy()?;
        let draft = self.draft.copy(alloc)?;
        Ok(Work {
            settings,
            store,
            draft,
        })
    }
}
