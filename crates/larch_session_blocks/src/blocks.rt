ghost use Rattle.std.specs.Prelude.{◌≡◌};
ghost use Rattle.std.specs.Option.{option_copied};
ghost use Rattle.larch_session_meaning.specs.ProveMeaningReports.{commands_in, line_at, line_of_block};
ghost use Rattle.larch_session_meaning.specs.ProveMeaningScripts.{block_of, same_label};

use larch_base::{Label, numbered};
use larch_script_commands::{Block, RawCommand, Script};

/// The first block of a label. `None` exactly where there is none. It takes no memory.
pub fn block_of(script: &Script, label: Label) -> Option<&Block>
    ensures { option_copied result ≡ block_of script.now label }
{
    let blocks = script.blocks.as_slice();
    blocks.iter().find(|block| same_label(block.label, label))
}

/// The commands of the first block of a label, none where there is no block. It takes no memory.
pub fn commands_for(script: &Script, label: Label) -> &[RawCommand]
    ensures { result.now ≡ commands_in (block_of script.now label) }
{
    match block_of(script, label) {
        Some(block) => block.commands.as_slice(),
        None => &[],
    }
}

/// The line on which the first block of a label begins, 0 where there is none. It takes no memory.
pub fn line_of_block(script: &Script, label: Label) -> u32
    ensures { result ≡ line_of_block (block_of script.now label) }
{
    match block_of(script, label) {
        Some(block) => block.line,
        None => 0,
    }
}

/// The line of the command with a number, from 1; 0 where there is none. It takes no memory.
pub fn line_at(commands: &[RawCommand], number: u32) -> u32
    ensures { result ≡ line_at commands.now number }
{
    match numbered(commands, number as u64) {
        Some(command) => command.line,
        None => 0,
    }
}

/// Whether two labels are one. It takes no memory.
pub fn same_label(one: Label, other: Label) -> bool
    ensures { result ≡ same_label one other }
{
    match (one, other) {
        (Label::Assume(number), Label::Assume(second)) => number == second,
        (Label::Imply(number), Label::Imply(second)) => number == second,
        (Label::Convert(number), Label::Convert(second)) => number == second,
        _ => false,
    }
}
