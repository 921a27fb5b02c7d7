ghost use Rattle.std.specs.Prelude.{IfOk, All};
ghost use Rattle.larch_rewrite_match.specs.Rule.{IsRule, IsSaidByRow};
ghost use Rattle.larch_rewrite_match.specs.Search.{AreRowsFor};
ghost use Rattle.larch_store.specs.Numbered.{term_of};

use crate::rows::rows_at;
use crate::rule::sort_at;
use crate::shared::SharedRule;
use crate::table::RuleTable;
use indexmap::IndexMap;
use larch_base::Memory;
use larch_store::{Shared, SharedNode};
use larch_term::{Operator, Sort, is_built_in};
use std::alloc::Global;
use std::marker::Model;

/// The built-in rows that rewrite, at the sorts that have come up, each found by its head. Contracts see the sorts with
/// their rows.
#[derive(Drop)]
pub struct RowTables {
    alloc: Global,
    tables: IndexMap<Sort, RuleTable>,
}

impl Model for RowTables {
    ghost use Rattle.std.specs.Prelude.{List, ℕ};
    ghost use Rattle.larch_rewrite_match.specs.Rows.{AreRowTables};
    ghost use Rattle.larch_rewrite_match.specs.declared.rule.RewriteRule.{RewriteRule};

    ghost Value = { List (List ℕ × List RewriteRule) };

    ghost use Rattle.std.specs.Coded.{codes};
    ghost use Rattle.larch_term.specs.TreeCode.{coded_tree};

    ghost coded = { Prim.hlevel (codes, coded_tree) };

    ghost view = { λ rows. rows.tables.entries };

    ghost invariant = { λ rows. AreRowTables rows.tables.entries };
}

impl RowTables {
    /// No sorts yet. It takes no memory.
    #[tactic(auto, using(crate::proofs::Tables::no_tables))]
    pub fn new(alloc: Global) -> RowTables {
        RowTables {
            alloc,
            tables: IndexMap::new(alloc),
        }
    }

    /// Makes the rows for a term, unless they are there.
    pub fn prepare(&mut self, term: &Shared) -> Result<(), Memory> {
        if let SharedNode::Application(operator, _) = term.node() {
            self.prepare_for(operator)?;
        }
        Ok(())
    }

    // Makes the rows at the sort of a built-in operator, unless they are there.
    fn prepare_for(&mut self, operator: &Operator) -> Result<(), Memory> {
        if !is_built_in(operator) {
            return Ok(());
        }
        let sort = sort_at(self.alloc, operator)?;
        if self.tables.get(&sort).is_none() {
            let rows = rows_at(self.alloc, &sort)?;
            self.tables.insert(sort, rows)?;
        }
        Ok(())
    }

    /// The rows that may apply at the root of a term, where they have been made.
    #[tactic(auto, using(crate::proofs::Tables::no_rows_for_variables))]
    pub fn rows_for(&self, term: &Shared) -> Result<&[SharedRule], Memory>
        ensures rows { IfOk result (λ rows. AreRowsFor rows.now (term_of term.now)) }
        ensures reasons { IfOk result (λ rows. All IsSaidByRow rows.now) }
        ensures rules { IfOk result (λ rows. All IsRule rows.now) }
    {
        let SharedNode::Application(operator, _) = term.node() else {
            return Ok(&[]);
        };
        if !is_built_in(operator) {
            return Ok(&[]);
        }
        let sort = sort_at(self.alloc, operator)?;
        match self.tables.get(&sort) {
            Some(rows) => Ok(rows.with_head(operator)),
            None => Err(Memory),
        }
    }
}
