ghost use Rattle.std.specs.Prelude.{◌≡◌, ◌+◌, ◌-◌, ◌^◌, [], if◌then◌else◌, length, map, min, option_map, slice_get};
ghost use Rattle.std.specs.Prelude.{take, IfOk, OnErr, OnOk};
ghost use Rattle.larch_flat_meaning.specs.Gathered.{nodes_in, stands_in, statement_nodes, statements_in, with_statement};
ghost use Rattle.larch_flat_statements.specs.Marks.{marked_in, stated_in};
ghost use Rattle.indexmap.specs.IndexMap.{keys};

use crate::key::{Sought, StatementKey};
use indexmap::IndexMap;
use larch_base::{Memory, Sequence};
use larch_term::{Statement, Statements, size};
use std::alloc::Global;
use std::marker::Model;

/// Statements in the order in which they came, each once, with the mark that says whether a statement is only assumed.
pub struct MarkedStatements {
    entries: IndexMap<StatementKey, bool>,
    nodes: u64,
}

// By a call, so that a proof takes the statements apart in one place alone.
impl Drop for MarkedStatements {
    fn drop(self) {
        let MarkedStatements {
            entries: _entries,
            nodes: _nodes,
        } = self;
    }
}

impl Model for MarkedStatements {
    ghost use Rattle.std.specs.Prelude.{List, ◌≡◌, ◌-◌, ◌^◌, min};
    ghost use Rattle.std.specs.Coded.{coded_list};
    ghost use Rattle.larch_flat_meaning.specs.Gathered.{Marked, nodes_in};
    ghost use Rattle.larch_flat_statements.specs.MarkedCode.{coded_marked};

    ghost Value = { List Marked };

    ghost coded = { coded_list coded_marked };

    ghost use Rattle.larch_flat_statements.specs.Marks.{marked_in};

    ghost view = { λ marked. marked_in marked.entries.entries };

    ghost invariant = { λ marked. marked.nodes ≡ min (nodes_in (marked_in marked.entries.entries)) (2 ^ 64 - 1) };
}

impl MarkedStatements {
    /// No statements. It takes no memory.
    pub fn new(alloc: Global) -> MarkedStatements
        ensures { result ≡ [] }
    {
        MarkedStatements {
            entries: IndexMap::new(alloc),
            nodes: 0,
        }
    }

    /// Puts a statement behind the others, unless it is there. One that is there keeps its place, and is only assumed
    /// where it was so and is assumed once more. It takes as long as the statement is large.
    pub fn insert(&mut self, statement: Statement, assumed: bool) -> Result<(), Memory>
        ensures { OnOk result (self.new ≡ with_statement statement assumed self.old) }
    {
        let nodes = nodes_of(&statement);
        if put(&mut self.entries, statement, assumed)? {
            self.nodes = self.nodes.saturating_add(nodes);
        }
        Ok(())
    }

    /// Whether a statement is there. It takes no memory.
    pub fn contains(&self, statement: &Statement) -> bool
        ensures { result ≡ stands_in (statements_in self.now) statement.now }
    {
        stands(&self.entries, statement)
    }

    /// How many statements there are. It takes no memory.
    pub fn len(&self) -> usize
        ensures { result ≡ length self.now }
    {
        self.entries.len()
    }

    /// How many nodes the terms of all statements have; the greatest number of `u64` where they have more. It is kept,
    /// so no term is gone down. It takes no memory.
    pub fn nodes(&self) -> u64
        ensures { result ≡ min (nodes_in self.now) (2 ^ 64 - 1) }
    {
        self.nodes
    }

    /// The statement with this number, counted from 0, and whether it is only assumed. It takes no memory.
    pub fn get(&self, index: usize) -> Option<(&Statement, bool)>
        ensures { option_map (λ m. record { statement = m.0.now; assumed = m.1 }) result ≡ slice_get self.now index }
    {
        let (key, assumed) = self.entries.get_index(index)?;
        Some((&key.statement, *assumed))
    }

    /// The statements without their marks, when these are no longer needed.
    pub fn into_statements(self, alloc: Global) -> Result<Statements, Memory>
        ensures { IfOk result (λ statements. statements ≡ statements_in self) }
    {
        let MarkedStatements {
            entries,
            nodes: _nodes,
        } = self;
        let statements = statements_of(alloc, entries)?;
        Ok(statements)
    }
}

// How many nodes the terms of a statement have; the greatest number of `u64` where they have more.
fn nodes_of(statement: &Statement) -> u64
    ensures { result ≡ min (statement_nodes statement.now) (2 ^ 64 - 1) }
{
    match statement {
        Statement::Equation(left, right) => size(left).saturating_add(size(right)),
        Statement::Generated(_, _) => 0,
        Statement::Partitioned(_, _) => 0,
    }
}

// Puts a statement behind the others, unless it is there; answers whether it is new. One that is there and is asserted
// now is asserted.
fn put(
    entries: &mut IndexMap<StatementKey, bool>,
    statement: Statement,
    assumed: bool,
) -> Result<bool, Memory>
    ensures put { OnOk result (marked_in entries.new.entries
        ≡ with_statement statement assumed (marked_in entries.old.entries)) }
    ensures nodes { IfOk result (λ added. nodes_in (marked_in entries.new.entries)
        ≡ nodes_in (marked_in entries.old.entries) + (if added then statement_nodes statement else 0)) }
    ensures err { OnErr result (entries.new.entries ≡ entries.old.entries) }
{
    if assumed && stands(entries, &statement) {
        return Ok(false);
    }
    let before = entries.insert(StatementKey { statement }, assumed)?;
    Ok(before.is_none())
}

// Whether a statement stands among entries.
fn stands(entries: &IndexMap<StatementKey, bool>, statement: &Statement) -> bool
    ensures { result ≡ stands_in (statements_in (marked_in entries.now.entries)) statement.now }
{
    entries.contains_key(Sought { statement })
}

// The statements of entries, without their marks.
fn statements_of(alloc: Global, entries: IndexMap<StatementKey, bool>) -> Result<Statements, Memory>
    ensures { IfOk result (λ statements. statements ≡ stated_in (keys entries)) }
{
    let mut statements = Sequence::new(alloc);
    for key in entries.into_keys() {
        let StatementKey { statement } = key;
        statements.push(statement)?;
    }
    Ok(statements)
}
