ghost use Rattle.std.specs.Prelude.{◌≡◌, ◌↔◌, ◌⊎◌, ◌≤◌, ◌<◌, false, IsTrue, IfOk, OnOk, OnErr, IsErrOf, length, get_or};
ghost use Rattle.std.specs.List.{insert, remove};
ghost use Rattle.larch_order.specs.declared.precedence.Ranked.{Ranked};
ghost use Rattle.larch_order.specs.Precedence.{IsIndex, has, height_of, status_of, above, above_built_ins};
ghost use Rattle.larch_order.specs.Precedence.{with_constant, raise, with_status};
ghost use Rattle.larch_order.specs.declared.precedence.OrderRefusal.TheVariants.{Memory as wants_memory};

use indexmap::IndexMap;
use larch_base::{Memory, Way};
use larch_term::{Operator, is_built_in};
use std::alloc::Global;
use std::marker::Model;
use thiserror::Error;

/// An operator with its status.
#[derive(Drop)]
pub struct Ranked {
    pub operator: Operator,
    pub status: Way,
}

/// A precedence. Contracts see it as the list of its operators with their statuses, from low to high. It finds the
/// height of an operator, its index in that list, in a map.
#[derive(Drop)]
pub struct Precedence {
    ranks: Vec<Ranked>,
    heights: IndexMap<Operator, usize>,
}

impl Model for Precedence {
    ghost use Rattle.std.specs.Prelude.{List};
    ghost use Rattle.larch_order.specs.declared.precedence.Ranked.{Ranked};
    ghost use Rattle.larch_order.specs.Precedence.{IsIndex};

    ghost Value = { List Ranked };

    ghost view = { λ precedence. precedence.ranks.items };

    ghost invariant = { λ precedence. IsIndex precedence.heights.entries precedence.ranks.items };
}

/// Why nothing is registered.
#[derive(Clone, Copy, Debug, PartialEq, Eq, Error)]
pub enum OrderRefusal {
    /// An operator isn't in the precedence.
    #[error("unknown operator")]
    Unknown,
    /// Out of memory.
    #[error("out of memory")]
    Memory,
}

impl From<Memory> for OrderRefusal {
    ghost from_gives = { λ _ refusal. refusal ≡ wants_memory };

    fn from(_memory: Memory) -> OrderRefusal {
        OrderRefusal::Memory
    }
}

impl Precedence {
    // The precedence with these entries.
    pub(crate) fn from_ranks(ranks: Vec<Ranked>) -> Result<Precedence, Memory>
        ensures { IfOk result (λ precedence. precedence ≡ ranks.items) }
    {
        let heights = index_of(*ranks.allocator(), ranks.as_slice())?;
        Ok(Precedence { ranks, heights })
    }

    /// The same precedence once more.
    pub fn copy(&self) -> Result<Precedence, Memory>
        ensures { IfOk result (λ precedence. precedence ≡ self.now) }
    {
        let ranks = copy_ranks(*self.ranks.allocator(), self.ranks.as_slice())?;
        Precedence::from_ranks(ranks)
    }

    /// Puts a new operator directly above the last built-in one. Out of memory, it changes nothing.
    pub fn add_constant(&mut self, constant: &Operator) -> Result<(), Memory>
        ensures ok { OnOk result (self.new ≡ with_constant self.old constant.now) }
        ensures err { OnErr result (self.new ≡ self.old) }
    {
        let operator = constant.copy()?;
        let height = self.above_built_ins();
        let status = Way::LeftToRight;
        let mut ranks = copy_ranks(*self.ranks.allocator(), self.ranks.as_slice())?;
        ranks.insert(height, Ranked { operator, status })?;
        *self = Precedence::from_ranks(ranks)?;
        Ok(())
    }

    // The height directly above the last built-in operator.
    #[tactic(auto, using(crate::proofs::BuiltIns::above_one_more, crate::proofs::BuiltIns::above_other_more, crate::proofs::BuiltIns::above_within))]
    fn above_built_ins(&self) -> usize
        ensures height { result ≡ above_built_ins self.now }
        ensures within { result ≤ length self.now }
    {
        let mut height = 0;
        for i in 0..self.ranks.len() {
            if is_built_in(&self.ranks[i].operator) {
                height = i + 1;
            }
        }
        height
    }

    /// Puts an operator directly above another one, unless it stands above it already or is that operator.
    pub fn register_height(
        &mut self,
        upper: &Operator,
        lower: &Operator,
    ) -> Result<(), OrderRefusal>
        ensures ok { OnOk result (self.new ≡ raise self.old upper.now lower.now) }
        ensures err { OnErr result (self.new ≡ self.old) }
        ensures unknown { IsErrOf result OrderRefusal.Unknown ↔
            ((has self.old upper.now ≡ false) ⊎ (has self.old lower.now ≡ false)) }
    {
        let (Some(from), Some(to)) = (self.height(upper), self.height(lower)) else {
            return Err(OrderRefusal::Unknown);
        };
        if from < to {
            *self = self.moved_up(from, to)?;
        }
        Ok(())
    }

    // The precedence with the entry at a height moved up to another one.
    fn moved_up(&self, from: usize, to: usize) -> Result<Precedence, Memory>
        requires { (from < to) × (to < length self.now) }
        ensures { IfOk result (λ moved.
            (d : Ranked) → moved ≡ insert (remove self.now from) to (get_or self.now from d)) }
    {
        let mut ranks = copy_ranks(*self.ranks.allocator(), self.ranks.as_slice())?;
        move_up(ranks.as_mut_slice(), from, to);
        Precedence::from_ranks(ranks)
    }

    /// Gives an operator another status.
    pub fn register_status(&mut self, operator: &Operator, status: Way) -> Result<(), OrderRefusal>
        ensures ok { OnOk result (self.new ≡ with_status self.old operator.now status) }
        ensures err { OnErr result (self.new ≡ self.old) }
        ensures unknown { IsErrOf result OrderRefusal.Unknown ↔ (has self.old operator.now ≡ false) }
    {
        let Some(height) = self.height(operator) else {
            return Err(OrderRefusal::Unknown);
        };
        self.ranks[height].status = status;
        Ok(())
    }

    // The height of an operator.
    fn height(&self, operator: &Operator) -> Option<usize>
        ensures { result ≡ height_of self.now operator.now }
    {
        self.heights.get(operator).copied()
    }

    /// Whether an operator is above another one. It takes no memory.
    pub fn is_above(&self, upper: &Operator, lower: &Operator) -> bool
        ensures { result ≡ above self.now upper.now lower.now }
    {
        match (self.height(upper), self.height(lower)) {
            (Some(high), Some(low)) => low < high,
            _ => false,
        }
    }

    /// The status of an operator: left-to-right where it isn't in the precedence. It takes no memory.
    pub fn status(&self, operator: &Operator) -> Way
        ensures { result ≡ status_of self.now operator.now }
    {
        match self.height(operator) {
            Some(height) => self.ranks[height].status,
            None => Way::LeftToRight,
        }
    }
}

// The entries once more.
fn copy_ranks(alloc: Global, ranks: &[Ranked]) -> Result<Vec<Ranked>, Memory>
    ensures { IfOk result (λ copied. copied.items ≡ ranks.now) }
{
    let mut copied = Vec::with_capacity(alloc, ranks.len())?;
    for rank in ranks {
        let operator = rank.operator.copy()?;
        let status = rank.status;
        copied.push(Ranked { operator, status })?;
    }
    Ok(copied)
}

// The height of each operator, from the last entry to the first: where an operator stands twice, the lower one
// counts.
fn index_of(alloc: Global, ranks: &[Ranked]) -> Result<IndexMap<Operator, usize>, Memory>
    ensures { IfOk result (λ heights. IsIndex heights.entries ranks.now) }
{
    let mut heights = IndexMap::new(alloc);
    let mut height = ranks.len();
    while height > 0 {
        height -= 1;
        let operator = ranks[height].operator.copy()?;
        heights.insert(operator, height)?;
    }
    Ok(heights)
}

// Moves the entry at a height up to another one; those between come down by one.
fn move_up(ranks: &mut [Ranked], from: usize, to: usize)
    requires { (from < to) × (to < length ranks.old) }
    ensures { (d : Ranked) → ranks.new ≡ insert (remove ranks.old from) to (get_or ranks.old from d) }
{
    ranks[from..=to].rotate_left(1);
}
