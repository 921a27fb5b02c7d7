ghost use Rattle.std.specs.Prelude.{◌≡◌, ◌↔◌, ℕ, ◌<◌, [], ◌++◌, ◌∷◌, length, map, All, IsTrue, IfOk, OnErr};
ghost use Rattle.std.specs.Prelude.{slice_get, Some};
ghost use Rattle.larch_term.specs.Tree.{var, app, forest_of};
ghost use Rattle.larch_term.specs.Sorts.{WellSorted, AllWellSorted, sort_of, sorts_of};
ghost use Rattle.larch_term.specs.Variable.{occurrences, occurrences_in};
ghost use Rattle.larch_verify_pool.specs.Pooled.{Pooled, Marked, name_of, operator_of, operator_in, tree_in, node_tree};
ghost use Rattle.larch_verify_pool.specs.Pooled.{StandsBehind, Grows, HasTree, Kept};

use crate::node::{Marks, PoolNode};
use crate::numbers::NodeNumbers;
use crate::symbol::{PoolSymbol, SymbolName};
use indexmap::IndexSet;
use larch_base::{Memory, Name};
use std::alloc::Global;
use std::marker::Model;

/// Terms, each a number: a node is kept once, whatever terms it stands in, so that equal terms have one number.
/// Contracts see a pool as its operators and the trees of its nodes, in the order of their numbers. A pool only
/// grows. Numbers have 32 bits: more of them counts as out of memory.
pub struct Pool {
    symbols: IndexSet<PoolSymbol>,
    nodes: IndexSet<PoolNode>,
    marks: Vec<Marks>,
}

// By a call, so that a proof takes a pool apart in one place alone.
impl Drop for Pool {
    fn drop(self) {
        let Pool {
            symbols: _symbols,
            nodes: _nodes,
            marks: _marks,
        } = self;
    }
}

impl Model for Pool {
    ghost use Rattle.larch_verify_pool.specs.Pooled.{Pooled, pool_of, IsPool};
    ghost use Rattle.larch_verify_pool.specs.PooledCode.{coded_pooled};

    ghost Value = { Pooled };

    ghost coded = { coded_pooled };

    ghost view = { λ pool. pool_of pool.symbols.keys pool.nodes.keys };

    ghost invariant = { λ pool. IsPool pool.symbols.keys pool.nodes.keys pool.marks.items };
}

// What is kept beside a variable.
const VARIABLE: Marks = Marks {
    is_well_sorted: true,
    is_ground: false,
};

impl Pool {
    /// A pool without nodes. It takes no memory.
    #[tactic(auto, unfolding(crate::specs::Pooled::trees_behind, crate::specs::Pooled::AllStandBehind))]
    pub fn new(alloc: Global) -> Pool
        ensures operators { result.operators ≡ [] }
        ensures trees { result.trees ≡ [] }
    {
        Pool {
            symbols: IndexSet::new(alloc),
            nodes: IndexSet::new(alloc),
            marks: Vec::new(alloc),
        }
    }

    /// How many nodes there are.
    #[tactic(auto, using(crate::proofs::Trees::length_behind))]
    pub fn len(&self) -> usize
        ensures { result ≡ length self.now.trees }
    {
        self.nodes.len()
    }

    /// The number of an operator.
    pub fn operator(&mut self, symbol: PoolSymbol) -> Result<u32, Memory>
        ensures number { IfOk result (λ n. slice_get self.new.operators n ≡ Some (operator_of symbol)) }
        ensures grows { Grows self.old self.new }
        ensures trees { self.new.trees ≡ self.old.trees }
    {
        if self.symbols.len() >= u32::MAX as usize {
            return Err(Memory);
        }
        let (index, _) = self.symbols.insert_full(symbol)?;
        Ok(index as u32)
    }

    /// Whether two numbers stand for one tree. It takes no memory.
    pub fn same(&self, left: u32, right: u32) -> bool
        requires left { left < length self.now.trees }
        requires right { right < length self.now.trees }
        ensures { IsTrue result ↔ (tree_in self.now.trees left ≡ tree_in self.now.trees right) }
    {
        self.are_apart();
        left == right
    }

    // The trees of a pool differ.
    pub fn are_apart(&self)
        ensures { (i j : ℕ) → i < length self.now.trees → j < length self.now.trees
            → tree_in self.now.trees i ≡ tree_in self.now.trees j → i ≡ j }
    {
        let _ = self.symbols.len();
        let _ = self.nodes.len();
    }

    /// What a node is. It takes no memory.
    pub fn node(&self, number: u32) -> &PoolNode
        requires { number < length self.now.trees }
        ensures tree { node_tree self.now.operators self.now.trees result.now ≡ tree_in self.now.trees number }
        ensures stands { StandsBehind (length self.now.operators) number result.now }
    {
        &self.nodes.as_slice()[number as usize]
    }

    /// The sort of a node's tree. It takes no memory.
    pub fn sort_of(&self, number: u32) -> &Name
        requires { number < length self.now.trees }
        ensures { result.now ≡ sort_of (tree_in self.now.trees number) }
    {
        match &self.nodes.as_slice()[number as usize] {
            PoolNode::Var(_, sort) => sort,
            PoolNode::App(operator, _) => &self.symbols.as_slice()[*operator as usize].range,
        }
    }

    /// Whether a node's tree has no variables. It takes no memory, and its time is constant.
    pub fn is_ground(&self, number: u32) -> bool
        requires { number < length self.now.trees }
        ensures { IsTrue result ↔ (occurrences (tree_in self.now.trees number) ≡ []) }
    {
        self.marks[number as usize].is_ground
    }

    /// Whether a node's tree is well sorted. It takes no memory, and its time is constant.
    pub fn is_well_sorted(&self, number: u32) -> bool
        requires { number < length self.now.trees }
        ensures { IsTrue result ↔ WellSorted (tree_in self.now.trees number) }
    {
        self.marks[number as usize].is_well_sorted
    }

    /// The number of an operator with arguments.
    pub fn apply(&mut self, operator: u32, arguments: NodeNumbers) -> Result<u32, Memory>
        requires operator { operator < length self.old.operators }
        requires arguments { All (λ c. c < length self.old.trees) arguments }
        ensures tree { IfOk result (λ n. HasTree self.new n
            (app (operator_in self.old.operators operator) (forest_of (map (tree_in self.old.trees) arguments)))) }
        ensures grows { Grows self.old self.new }
        ensures operators { self.new.operators ≡ self.old.operators }
    {
        let mark = Marks {
            is_well_sorted: self.fits(operator, arguments.as_slice()),
            is_ground: self.are_ground(arguments.as_slice()),
        };
        let number = self.intern(PoolNode::App(operator, arguments), mark)?;
        Ok(number)
    }

    // Whether the application of an operator to arguments is well sorted.
    fn fits(&self, operator: u32, arguments: &[u32]) -> bool
        requires operator { operator < length self.now.operators }
        requires arguments { All (λ c. c < length self.now.trees) arguments.now }
        ensures { IsTrue result ↔ WellSorted (app (operator_in self.now.operators operator)
            (forest_of (map (tree_in self.now.trees) arguments.now))) }
    {
        self.takes(operator, arguments) && self.are_well_sorted(arguments)
    }

    /// Whether arguments have the sorts of an operator's domain. It takes no memory.
    #[tactic(auto, using(crate::proofs::Fitting::sorts_length))]
    pub fn takes(&self, operator: u32, arguments: &[u32]) -> bool
        requires operator { operator < length self.now.operators }
        requires arguments { All (λ c. c < length self.now.trees) arguments.now }
        ensures { IsTrue result ↔ (sorts_of (forest_of (map (tree_in self.now.trees) arguments.now))
            ≡ (operator_in self.now.operators operator).domain) }
    {
        let domain = self.domain(operator);
        if domain.len() != arguments.len() {
            return false;
        }
        for i in 0..arguments.len() {
            if *self.sort_of(arguments[i]) != domain[i] {
                return false;
            }
        }
        true
    }

    // Whether arguments are well sorted.
    fn are_well_sorted(&self, arguments: &[u32]) -> bool
        requires { All (λ c. c < length self.now.trees) arguments.now }
        ensures { IsTrue result ↔ AllWellSorted (forest_of (map (tree_in self.now.trees) arguments.now)) }
    {
        for i in 0..arguments.len() {
            if !self.is_well_sorted(arguments[i]) {
                return false;
            }
        }
        true
    }

    // Whether arguments have no variables.
    fn are_ground(&self, arguments: &[u32]) -> bool
        requires { All (λ c. c < length self.now.trees) arguments.now }
        ensures { IsTrue result ↔ (occurrences_in (forest_of (map (tree_in self.now.trees) arguments.now)) ≡ []) }
    {
        for i in 0..arguments.len() {
            if !self.is_ground(arguments[i]) {
                return false;
            }
        }
        true
    }

    // The domain of an operator.
    fn domain(&self, operator: u32) -> &[Name]
        requires { operator < length self.now.operators }
        ensures { result.now ≡ (operator_in self.now.operators operator).domain }
    {
        self.symbols.as_slice()[operator as usize].domain.as_slice()
    }

    /// The name of an operator. It takes no memory.
    pub fn name(&self, operator: u32) -> &SymbolName
        requires { operator < length self.now.operators }
        ensures { name_of result.now ≡ (operator_in self.now.operators operator).name }
    {
        &self.symbols.as_slice()[operator as usize].name
    }

    /// Whether numbers are those of nodes. It takes no memory.
    pub fn are_within(&self, numbers: &[u32]) -> bool
        ensures { IsTrue result ↔ All (λ c. c < length self.now.trees) numbers.now }
    {
        for number in numbers {
            if *number as usize >= self.len() {
                return false;
            }
        }
        true
    }

    /// How many operators there are.
    pub fn operator_count(&self) -> usize
        ensures { result ≡ length self.now.operators }
    {
        self.symbols.len()
    }

    /// The number of a variable.
    pub fn var(&mut self, name: Name, sort: Name) -> Result<u32, Memory>
        ensures tree { IfOk result (λ n. HasTree self.new n (var name sort)) }
        ensures grows { Grows self.old self.new }
        ensures operators { self.new.operators ≡ self.old.operators }
    {
        let number = self.intern(PoolNode::Var(name, sort), VARIABLE)?;
        Ok(number)
    }

    // The number of a node.
    fn intern(&mut self, node: PoolNode, mark: Marks) -> Result<u32, Memory>
        requires stands { StandsBehind (length self.old.operators) (length self.old.trees) node }
        requires mark { Marked mark (node_tree self.old.operators self.old.trees node) }
        ensures tree { IfOk result (λ n. HasTree self.new n (node_tree self.old.operators self.old.trees node)) }
        ensures grows { Grows self.old self.new }
        ensures operators { self.new.operators ≡ self.old.operators }
    {
        let number = keep(&mut self.nodes, &mut self.marks, node, mark)?;
        Ok(number)
    }
}

// The number of a key that stands in the table or is put behind the others. Where memory is wanting nothing changes.
#[tactic(auto, using(crate::proofs::Same::same_node))]
fn keep(
    nodes: &mut IndexSet<PoolNode>,
    marks: &mut Vec<Marks>,
    node: PoolNode,
    mark: Marks,
) -> Result<u32, Memory>
    ensures kept { IfOk result (λ n. Kept nodes.old.keys marks.old.items node mark n nodes.new.keys marks.new.items) }
    ensures nodes { OnErr result (nodes.new.keys ≡ nodes.old.keys) }
    ensures marks { OnErr result (marks.new.items ≡ marks.old.items) }
{
    if nodes.len() >= u32::MAX as usize {
        return Err(Memory);
    }
    marks.push(mark)?;
    let Ok((place, is_new)) = nodes.insert_full(node) else {
        let _ = marks.pop();
        return Err(Memory);
    };
    if !is_new {
        let _ = marks.pop();
    }
    Ok(place as u32)
}
