ghost use Rattle.std.specs.Prelude.{◌≡◌, suc, IfOk, OnOk, drop, replicate};
ghost use Rattle.larch_trim.specs.Ends.{AreEnds, ends_behind, with_end};
ghost use Rattle.larch_trim_meaning.specs.Needed.{open_behind};

use larch_base::Memory;
use larch_certificate::Line;
use larch_certificate_text::Stack;
use std::alloc::Global;

/// Of each box, by its number, the done line that closes it, or 0.
pub fn ends_of(alloc: Global, lines: &[Line]) -> Result<Vec<u64>, Memory>
    ensures { IfOk result (λ ends. AreEnds lines.now ends.items) }
{
    let mut ends = no_ends(alloc, lines.len())?;
    let mut inside = Stack::new(alloc);
    let mut number = 0;
    for line in lines {
        number += 1;
        pass_line(number, line, &mut inside, &mut ends)?;
    }
    Ok(ends)
}

// No box of so many lines ends yet. There is a place for 0 too.
fn no_ends(alloc: Global, lines: usize) -> Result<Vec<u64>, Memory>
    ensures { IfOk result (λ ends. ends.items ≡ replicate (suc lines) 0) }
{
    let mut ends = Vec::new(alloc);
    ends.push(0)?;
    for _line in 0..lines {
        ends.push(0)?;
    }
    Ok(ends)
}

// A line opens a box, closes the innermost one, or does neither.
fn pass_line(
    number: u64,
    line: &Line,
    inside: &mut Stack<u64>,
    ends: &mut Vec<u64>,
) -> Result<(), Memory>
    ensures inside { OnOk result (inside.new ≡ open_behind number inside.old line.now) }
    ensures ends { OnOk result (ends.new.items ≡ ends_behind number inside.old line.now ends.old.items) }
{
    match line {
        Line::BoxLine(_, _) => inside.push(number)?,
        Line::Done => close_box(number, inside, ends),
        _ => {}
    }
    Ok(())
}

// The innermost box ends at a line.
fn close_box(number: u64, inside: &mut Stack<u64>, ends: &mut Vec<u64>)
    ensures inside { inside.new ≡ drop 1 inside.old }
    ensures ends { ends.new.items ≡ with_end number inside.old ends.old.items }
{
    if let Some(closed) = inside.pop() {
        if let Some(end) = ends.get_mut(closed as usize) {
            *end = number;
        }
    }
}
