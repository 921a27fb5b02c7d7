use crate::command::Commands;
use larch_base::{Label, Sequence};

/// A block: the label of the duty that it proves, the line that says so, from 1, and its commands.
#[derive(Drop)]
pub struct Block {
    pub line: u32,
    pub label: Label,
    pub commands: Commands,
}

/// Blocks in order.
pub type Blocks = Sequence<Block>;

/// A script: what stands before its first block, and its blocks.
#[derive(Drop)]
pub struct Script {
    pub preamble: Commands,
    pub blocks: Blocks,
}
