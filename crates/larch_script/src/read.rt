ghost use Rattle.std.specs.Prelude.{◌≡◌, ◌≢◌, ◌≤◌, All, IfOk, MatchOption, OnOk, length};
ghost use Rattle.larch_base.specs.declared.limits.TheConstants.{MAX_FILE_BYTES};
ghost use Rattle.larch_script_commands.specs.declared.script.Script.{Script as Whole};
ghost use Rattle.larch_script.specs.Draft.{whole};
ghost use Rattle.larch_script.specs.Line.{line_of};
ghost use Rattle.larch_script.specs.Scripts.{IsCut, IsLastLine, line_length, script_of, with_line};

use crate::draft::Draft;
use crate::line::read_line;
use larch_base::Memory;
use larch_script_commands::Script;
use std::alloc::Global;

/// The script that a text is: each line that isn't blank is a command, a mark, the beginning of a block, or a bad line
/// with its code. Refused only where memory runs out.
#[tactic(auto, unfolding(crate::specs::Scripts::script_of))]
pub fn read_script(alloc: Global, text: &[u8]) -> Result<Script, Memory>
    requires { length text.now ≤ MAX_FILE_BYTES }
    ensures { IfOk result (λ script. script ≡ script_of text.now) }
{
    let mut draft = Draft::new(alloc);
    let mut number: u32 = 1;
    let mut rest = text;
    'lines: while let Some((line, others)) = first_line(rest) {
        take(alloc, &mut draft, number, line)?;
        number += 1;
        rest = others;
    }
    take(alloc, &mut draft, number, rest)?;
    draft.end()
}

// Takes the line of this number.
fn take(alloc: Global, draft: &mut Draft, number: u32, line: &[u8]) -> Result<(), Memory>
    requires short { length line.now ≤ MAX_FILE_BYTES }
    requires one_line { All (λ byte. byte ≢ 10) line.now }
    ensures { OnOk result ((rest : Whole) → whole draft.new rest
        ≡ whole draft.old (with_line number (line_of number line.now) rest)) }
{
    let read = read_line(alloc, line, number)?;
    draft.put(alloc, number, read)
}

// The first line and what stands behind its newline, if it has one.
fn first_line<'a>(text: &'a [u8]) -> Option<(&'a [u8], &'a [u8])>
    ensures { MatchOption result (IsLastLine text.now) (λ cut. IsCut text.now cut.0.now cut.1.now) }
{
    let length = line_length(text);
    if length < text.len() {
        Some((&text[..length], &text[length + 1..]))
    } else {
        None
    }
}

// How many bytes stand before the first newline.
fn line_length(text: &[u8]) -> usize
    ensures length { result ≡ line_length text.now }
    ensures within { result ≤ length text.now }
{
    let mut length = 0;
    let mut rest = text;
    while let [byte, others @ ..] = rest {
        if *byte == b'\n' {
            break;
        }
        length += 1;
        rest = others;
    }
    length
}
