ghost use Rattle.std.specs.Prelude.{◌≡◌, ◌++◌, IfOk, OnOk};
ghost use Rattle.larch_generate.specs.Generator.{generated_text, size_text};
ghost use Rattle.larch_report.specs.Counts.{counts_of};
ghost use Rattle.larch_report.specs.Text.{total_text};

use larch_base::{Bytes, Memory};
use larch_report::{Counts, ReportLine, counts_of};
use std::alloc::Global;

/// What is written of so many traits, by the lines of the report on them: how many there are, and the totals.
pub fn generated_text(alloc: Global, size: u32, lines: &[ReportLine]) -> Result<Bytes, Memory>
    ensures { IfOk result (λ text. text ≡ generated_text size lines.now) }
{
    let mut text = Bytes::new(alloc);
    append_size(alloc, &mut text, size)?;
    append_total(alloc, &mut text, counts_of(lines))?;
    Ok(text)
}

fn append_size(alloc: Global, text: &mut Bytes, size: u32) -> Result<(), Memory>
    ensures { OnOk result (text.new ≡ text.old ++ size_text size) }
{
    let said = format!(in alloc; "generated {size} traits\n")?;
    text.append(said.as_bytes())
}

// Puts the line of the totals at the end.
fn append_total(alloc: Global, text: &mut Bytes, counts: Counts) -> Result<(), Memory>
    ensures { OnOk result (text.new ≡ text.old ++ total_text counts) }
{
    let Counts {
        traits,
        errors,
        proved,
        suspended,
        refused,
    } = counts;
    let said = format!(in alloc;
        "total {traits} traits, {errors} errors, {proved} proved, {suspended} suspended, {refused} refused\n"
    )?;
    text.append(said.as_bytes())
}
