ghost use Rattle.std.specs.Prelude.{◌≡◌, ⊤};
ghost use Rattle.std.proofs.Common.{ap};
ghost use Rattle.std.specs.Cmp.{on_equiv, on_per, partial_equiv_from_equiv};
ghost use Rattle.larch_term.specs.Equality.{same_statement};
ghost use Rattle.larch_flat_statements.specs.HashInput.{statement_input, fed_alike, statement_equivalence};

use crate::hashing::hash_statement;
use indexmap::Equivalent;
use larch_term::{Statement, same_statement};
use std::alloc::AllocError;
use std::hash::{Hash, Hasher};

/// A statement as a key of tables.
#[derive(Drop)]
pub(crate) struct StatementKey {
    pub(crate) statement: Statement,
}

/// A statement that is looked for among keys.
#[derive(Clone, Copy, Drop)]
pub(crate) struct Sought<'a> {
    pub(crate) statement: &'a Statement,
}

impl PartialEq for StatementKey {
    ghost eq = { λ k l. same_statement k.statement l.statement };

    ghost laws = { on_per (λ k. k.statement) (partial_equiv_from_equiv statement_equivalence) };

    fn eq(&self, other: &StatementKey) -> bool {
        same_statement(&self.statement, &other.statement)
    }
}

impl Eq for StatementKey {
    ghost laws = { on_equiv (λ k. k.statement) statement_equivalence };
}

impl Hash for StatementKey {
    ghost hash_input = { λ k. statement_input k.statement };

    ghost respects_eq = { λ k l. fed_alike k.statement l.statement };

    fn hash<H: Hasher>(&self, state: &mut H) {
        hash_statement(&self.statement, state);
    }
}

impl<'a> PartialEq for Sought<'a> {
    ghost eq = { λ p q. same_statement p.statement.now q.statement.now };

    ghost laws = { on_per (λ p. p.statement.now) (partial_equiv_from_equiv statement_equivalence) };

    fn eq(&self, other: &Sought<'a>) -> bool {
        same_statement(self.statement, other.statement)
    }
}

impl<'a> Eq for Sought<'a> {
    ghost laws = { on_equiv (λ p. p.statement.now) statement_equivalence };
}

impl<'a> Hash for Sought<'a> {
    ghost hash_input = { λ p. statement_input p.statement.now };

    ghost respects_eq = { λ p q. fed_alike p.statement.now q.statement.now };

    fn hash<H: Hasher>(&self, state: &mut H) {
        hash_statement(self.statement, state);
    }
}

impl<'a> Equivalent<StatementKey> for Sought<'a> {
    ghost equivalent = { λ p k. same_statement p.statement.now k.statement };

    ghost respects_hash = { λ p k. fed_alike p.statement.now k.statement };

    ghost respects_eq = { λ p k l. statement_equivalence.congr p.statement.now k.statement l.statement };

    fn equivalent(&self, key: &StatementKey) -> bool {
        same_statement(self.statement, &key.statement)
    }
}
