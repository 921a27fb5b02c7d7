ghost use Rattle.std.specs.Prelude.{◌≡◌, ◌++◌, ◌∷◌, [], map, List, OnOk};
ghost use Rattle.std.specs.List.{list_any};
ghost use Rattle.larch_session_meaning.specs.ProveMeaningReports.{script_lines};
ghost use Rattle.larch_session_meaning.specs.ProveMeaningScripts.{same_label};
ghost use Rattle.larch_script_commands.specs.declared.script.Block.{Block as is_block};
ghost use Rattle.larch_session_meaning.specs.Traits.{reported_line};

use crate::blocks::same_label;
use larch_base::{Code, Label, Memory, Sequence};
use larch_report::ReportLine;
use larch_script_commands::Block;
use std::alloc::Global;

/// Puts the lines of blocks that aren't replayed behind others: of those whose label is none of these, and of those
/// whose label an earlier block had. The time is the number of blocks times that of labels.
pub fn push_script_lines(
    alloc: Global,
    lines: &mut Sequence<ReportLine>,
    labels: &[Label],
    blocks: &[Block],
) -> Result<(), Memory>
    ensures { OnOk result (lines.new ≡ lines.old ++ map reported_line (script_lines labels.now [] blocks.now)) }
{
    let mut seen = Sequence::new(alloc);
    for block in blocks {
        push_block_line(lines, labels, &mut seen, block)?;
    }
    Ok(())
}

// Puts the line of a block behind others, if it has one. Of labels that earlier blocks had those of duties were seen.
fn push_block_line(
    lines: &mut Sequence<ReportLine>,
    labels: &[Label],
    seen: &mut Sequence<Label>,
    block: &Block,
) -> Result<(), Memory>
    ensures { OnOk result ((rest : List is_block)
        → lines.new ++ map reported_line (script_lines labels.now seen.new rest)
        ≡ lines.old ++ map reported_line (script_lines labels.now seen.old (block.now ∷ rest))) }
{
    if !is_among(labels, block.label) {
        return lines.push(ReportLine::Script(block.line, Code::UnknownDuty));
    }
    if is_among(seen.as_slice(), block.label) {
        return lines.push(ReportLine::Script(block.line, Code::DutyTwice));
    }
    seen.push(block.label)
}

// Whether a label is one of these.
fn is_among(labels: &[Label], label: Label) -> bool
    ensures { result ≡ list_any (same_label label) labels.now }
{
    labels.iter().any(|other| same_label(label, *other))
}
