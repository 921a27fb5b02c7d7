ghost use Rattle.std.specs.Prelude.{◌≡◌, ◌++◌, false, IfOk, OnOk, get_or, replicate};
ghost use Rattle.larch_trim.specs.Ends.{end_lines};
ghost use Rattle.larch_trim.specs.Searching.{is_free, marks_after, marks_with, needs_by, waiting_after, waiting_with};
ghost use Rattle.larch_trim_meaning.specs.Trimmed.{needed_marks};

use crate::ends::ends_of;
use crate::names::push_names;
use larch_base::{Memory, Sequence, numbered};
use larch_certificate::{Line, Numbers};
use larch_certificate_text::Stack;
use std::alloc::Global;

/// The marks of needed lines. Each line is looked at once at most.
pub fn needed_marks(alloc: Global, lines: &[Line]) -> Result<Vec<bool>, Memory>
    ensures { IfOk result (λ marks. marks.items ≡ needed_marks lines.now) }
{
    let ends = ends_of(alloc, lines)?;
    let mut marks = no_marks(alloc, lines.len())?;
    let mut waiting = Stack::new(alloc);
    mark(lines.len() as u64, &mut marks, &mut waiting)?;
    'lines: loop {
        let Some(number) = waiting.pop() else {
            return Ok(marks);
        };
        let wanted = needs_of(alloc, lines, ends.as_slice(), number)?;
        mark_all(wanted.as_slice(), &mut marks, &mut waiting)?;
    }
}

// So many lines without marks.
fn no_marks(alloc: Global, lines: usize) -> Result<Vec<bool>, Memory>
    ensures { IfOk result (λ marks. marks.items ≡ replicate lines false) }
{
    let mut marks = Vec::new(alloc);
    for _line in 0..lines {
        marks.push(false)?;
    }
    Ok(marks)
}

// What the line with a number needs.
fn needs_of(alloc: Global, lines: &[Line], ends: &[u64], number: u64) -> Result<Numbers, Memory>
    ensures { IfOk result (λ wanted. wanted ≡ needs_by lines.now ends.now number) }
{
    let mut wanted = Sequence::new(alloc);
    if let Some(line) = numbered(lines, number) {
        push_names(alloc, line, &mut wanted)?;
    }
    push_end(end_of(ends, number), &mut wanted)?;
    Ok(wanted)
}

// The line at which the box with a number ends, or 0.
fn end_of(ends: &[u64], number: u64) -> u64
    ensures { result ≡ get_or ends.now number 0 }
{
    match ends.get(number as usize) {
        Some(end) => *end,
        None => 0,
    }
}

// The line at which a box ends and the one before it, if it ends.
fn push_end(end: u64, wanted: &mut Numbers) -> Result<(), Memory>
    ensures { OnOk result (wanted.new ≡ wanted.old ++ end_lines end) }
{
    if end == 0 {
        return Ok(());
    }
    wanted.push(end)?;
    wanted.push(end - 1)
}

// Marks lines that are wanted.
fn mark_all(wanted: &[u64], marks: &mut Vec<bool>, waiting: &mut Stack<u64>) -> Result<(), Memory>
    ensures marks { OnOk result (marks.new.items ≡ marks_after wanted.now marks.old.items) }
    ensures waiting { OnOk result (waiting.new ≡ waiting_after wanted.now marks.old.items waiting.old) }
{
    for number in wanted {
        mark(*number, marks, waiting)?;
    }
    Ok(())
}

// Marks a line that is wanted, if there is one and it has no mark.
fn mark(number: u64, marks: &mut Vec<bool>, waiting: &mut Stack<u64>) -> Result<(), Memory>
    ensures marks { OnOk result (marks.new.items ≡ marks_with number marks.old.items) }
    ensures waiting { OnOk result (waiting.new ≡ waiting_with number marks.old.items waiting.old) }
{
    if is_free(marks.as_slice(), number) {
        waiting.push(number)?;
        marks[number as usize - 1] = true;
    }
    Ok(())
}

// Whether there is a line with a number that has no mark.
fn is_free(marks: &[bool], number: u64) -> bool
    ensures { result ≡ is_free marks.now number }
{
    match numbered(marks, number) {
        Some(marked) => !*marked,
        None => false,
    }
}
