ghost use Rattle.std.specs.Prelude.{◌≡◌, fold, OnOk};
ghost use Rattle.larch_flat_statements.specs.FlatMeaningGathered.{Gathered, is_too_large, nothing};
ghost use Rattle.larch_flat_statements.specs.FlatMeaningGathered.{with_asserted, with_operator};
ghost use Rattle.larch_flat_statements.specs.FlatMeaningGathered.{with_operators, with_taken};
ghost use Rattle.larch_flat_gathering.specs.Keeping.{Keeps};
ghost use Rattle.larch_flat_gathering.specs.Storing.{storing, storing_operators, with_limits};

use indexmap::IndexSet;
use larch_base::limits::{MAX_OPERATORS, MAX_STATEMENTS, MAX_TRAIT_NODES};
use larch_base::{Memory, Sequence};
use larch_flat_statements::MarkedStatements;
use larch_term::{Operator, Statement, Statements};
use std::alloc::Global;
use std::marker::Model;

/// What is gathered for a flat trait so far. Once a limit is passed for certain it is full, and keeps only further
/// operators: what is gathered only grows, so its statements decide nothing any more.
#[derive(Drop)]
pub struct Gathering {
    pub(crate) operators: IndexSet<Operator>,
    pub(crate) marked: MarkedStatements,
    pub(crate) discharge: Statements,
    pub(crate) full: bool,
}

impl Model for Gathering {
    ghost use Rattle.larch_flat_gathering.specs.Keeping.{Gathering as Kept};
    ghost use Rattle.larch_flat_gathering.specs.FlatCode.{coded_store};

    ghost Value = { Kept };

    ghost coded = { coded_store };

    ghost view = { λ store. record {
      gathered = record { operators = store.operators.keys; marked = store.marked; discharge = store.discharge };
      full = store.full;
    } };
}

impl Gathering {
    /// Nothing is gathered. It takes no memory.
    pub fn new(alloc: Global) -> Gathering
        ensures { Keeps result nothing }
    {
        Gathering {
            operators: IndexSet::new(alloc),
            marked: MarkedStatements::new(alloc),
            discharge: Sequence::new(alloc),
            full: false,
        }
    }

    /// Whether a limit is passed for certain, so that statements needn't be built any more. It takes no memory.
    pub fn is_full(&self) -> bool
        ensures { result ≡ self.now.full }
    {
        self.full
    }

    /// The operators, in order. It takes no memory.
    pub fn operators(&self) -> &[Operator]
        ensures { result.now ≡ self.now.gathered.operators }
    {
        self.operators.as_slice()
    }

    /// Whether a limit is passed. It takes no memory, and goes through nothing.
    pub fn is_too_large(&self) -> bool
        ensures { (g : Gathered) → Keeps self.now g → result ≡ is_too_large g }
    {
        self.full || self.passes_a_limit()
    }

    /// Puts operators behind the others, each unless it is there.
    pub fn insert_operators(&mut self, operators: &[Operator]) -> Result<(), Memory>
        ensures { (g : Gathered) → Keeps self.old g → OnOk result (Keeps self.new (with_operators operators.now g)) }
    {
        self.put_operators(operators)?;
        self.look_at_limits();
        Ok(())
    }

    /// Takes a statement of a trait, with its mark; the trait is assumed, or else included. All that is assumed is
    /// assumed. What is included is asserted; where that trait only assumed it, it is to be discharged.
    pub fn take_marked(
        &mut self,
        assumes: bool,
        statement: Statement,
        assumed: bool,
    ) -> Result<(), Memory>
        ensures { (g : Gathered) → Keeps self.old g
            → OnOk result (Keeps self.new (with_taken assumes
            (record { statement = statement; assumed = assumed }) g)) }
    {
        if self.is_full() {
            return Ok(());
        }
        self.put(assumes, statement, assumed)?;
        self.look_at_limits();
        Ok(())
    }

    // Asserts statements, in order.
    pub(crate) fn assert_all(&mut self, statements: Statements) -> Result<(), Memory>
        ensures { (g : Gathered) → Keeps self.old g → OnOk result (Keeps self.new (with_asserted statements g)) }
    {
        for statement in statements.into_vec() {
            self.take_marked(false, statement, false)?;
        }
        Ok(())
    }

    // Whether what is kept passes a limit.
    fn passes_a_limit(&self) -> bool
        ensures { result ≡ is_too_large self.now.gathered }
    {
        self.operators.len() > MAX_OPERATORS as usize
            || self.marked.len() > MAX_STATEMENTS as usize
            || self.marked.nodes() > MAX_TRAIT_NODES as u64
    }

    // Is full from now on where what is kept passes a limit.
    fn look_at_limits(&mut self)
        ensures { self.new ≡ with_limits self.old }
    {
        if self.passes_a_limit() {
            self.full = true;
        }
    }

    // Puts operators behind the others, whatever the limits.
    fn put_operators(&mut self, operators: &[Operator]) -> Result<(), Memory>
        ensures { OnOk result (self.new ≡ storing_operators operators.now self.old) }
    {
        put_all(&mut self.operators, operators)?;
        Ok(())
    }

    // Puts a statement where it belongs, whatever the limits.
    fn put(&mut self, assumes: bool, statement: Statement, assumed: bool) -> Result<(), Memory>
        ensures { OnOk result (self.new ≡ storing assumes
            (record { statement = statement; assumed = assumed }) self.old) }
    {
        if assumes {
            self.marked.insert(statement, true)?;
            return Ok(());
        }
        if assumed {
            self.discharge.push(statement)?;
            return Ok(());
        }
        self.marked.insert(statement, false)?;
        Ok(())
    }
}

// Puts operators behind the others, each unless it is there.
fn put_all(operators: &mut IndexSet<Operator>, more: &[Operator]) -> Result<(), Memory>
    ensures { OnOk result (operators.new.keys ≡ fold with_operator operators.old.keys more.now) }
{
    for operator in more {
        let operator = operator.copy()?;
        operators.insert(operator)?;
    }
    Ok(())
}
