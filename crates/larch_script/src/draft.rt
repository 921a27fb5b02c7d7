ghost use Rattle.std.specs.Prelude.{◌≡◌, IfOk, None, OnOk};
ghost use Rattle.larch_script_commands.specs.declared.script.Script.{Script as Whole};
ghost use Rattle.larch_script.specs.Draft.{all_blocks, whole};
ghost use Rattle.larch_script.specs.Scripts.{empty_script, with_line};
ghost use Rattle.larch_script.specs.declared.line.Line.TheVariants.{Command, Duty};

use crate::line::Line;
use larch_base::{Label, Memory, Sequence};
use larch_script_commands::{Block, Blocks, Commands, RawCommand, Script};
use std::alloc::Global;

/// A script of which the first lines are read: its preamble, its closed blocks, and the block that is open.
#[derive(Drop)]
pub(crate) struct Draft {
    preamble: Commands,
    blocks: Blocks,
    begun: Option<Block>,
}

impl Draft {
    /// No line yet. It takes no memory.
    pub(crate) fn new(alloc: Global) -> Draft
        ensures { (rest : Whole) → whole result rest ≡ rest }
    {
        Draft {
            preamble: Sequence::new(alloc),
            blocks: Sequence::new(alloc),
            begun: None,
        }
    }

    /// Takes the line of this number.
    pub(crate) fn put(&mut self, alloc: Global, number: u32, line: Line) -> Result<(), Memory>
        ensures { OnOk result ((rest : Whole) → whole self.new rest ≡ whole self.old (with_line number line rest)) }
    {
        match line {
            Line::Nothing => Ok(()),
            Line::Command(kind) => self.push(RawCommand { line: number, kind }),
            Line::Duty(label) => self.begin(alloc, number, label),
        }
    }

    // Takes a command, which stands in the open block if there is one.
    fn push(&mut self, command: RawCommand) -> Result<(), Memory>
        ensures { OnOk result ((rest : Whole)
            → whole self.new rest ≡ whole self.old (with_line command.line (Command command.kind) rest)) }
    {
        match &mut self.begun {
            Some(block) => block.commands.push(command),
            None => self.preamble.push(command),
        }
    }

    // Begins a block.
    fn begin(&mut self, alloc: Global, number: u32, label: Label) -> Result<(), Memory>
        ensures { OnOk result ((rest : Whole)
            → whole self.new rest ≡ whole self.old (with_line number (Duty label) rest)) }
    {
        self.close()?;
        self.begun = Some(Block {
            line: number,
            label,
            commands: Sequence::new(alloc),
        });
        Ok(())
    }

    // Closes the open block, if there is one.
    fn close(&mut self) -> Result<(), Memory>
        ensures blocks { OnOk result (self.new.blocks ≡ all_blocks self.old.blocks self.old.begun) }
        ensures preamble { OnOk result (self.new.preamble ≡ self.old.preamble) }
        ensures begun { OnOk result (self.new.begun ≡ None) }
    {
        match self.begun.take() {
            Some(block) => self.blocks.push(block),
            None => Ok(()),
        }
    }

    /// The script, where that were all lines.
    pub(crate) fn end(self) -> Result<Script, Memory>
        ensures { IfOk result (λ script. script ≡ whole self empty_script) }
    {
        let mut draft = self;
        draft.close()?;
        let Draft {
            preamble,
            blocks,
            ..
        } = draft;
        Ok(Script { preamble, blocks })
    }
}
