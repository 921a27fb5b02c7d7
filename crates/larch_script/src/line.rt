ghost use Rattle.std.specs.Prelude.{◌≡◌, ◌≢◌, ◌≤◌, All, IfOk, length};
ghost use Rattle.larch_base.specs.declared.limits.TheConstants.{MAX_FILE_BYTES};
ghost use Rattle.larch_lexer.specs.Lexing.{lexed_line};
ghost use Rattle.larch_lexer.specs.TokenTable.{is_blank};
ghost use Rattle.larch_script.specs.Line.{line_of, mark_at, mark_of, said, line_from};

use crate::commands::{command_of, duty};
use crate::tokens::says;
use larch_base::{Code, Label, Memory};
use larch_lexer::{LexRefusal, Tokens, lex_lp};
use larch_script_commands::CommandKind;
use std::alloc::Global;

/// What a line of a script is.
#[derive(Drop)]
pub(crate) enum Line {
    /// Blanks and a comment.
    Nothing,
    /// The beginning of the block of this duty.
    Duty(Label),
    /// A command, a mark, or a line that is none.
    Command(CommandKind),
}

/// What the line of this number is.
pub(crate) fn read_line(alloc: Global, line: &[u8], number: u32) -> Result<Line, Memory>
    requires short { length line.now ≤ MAX_FILE_BYTES }
    requires one_line { All (λ byte. byte ≢ 10) line.now }
    ensures { IfOk result (λ read. read ≡ line_of number line.now) }
{
    match mark_of(line) {
        Some(proved) => Ok(Line::Command(CommandKind::Mark(proved))),
        None => line_from(alloc, line, number),
    }
}

// What the tokens of a line are.
fn line_from(alloc: Global, line: &[u8], number: u32) -> Result<Line, Memory>
    requires short { length line.now ≤ MAX_FILE_BYTES }
    requires one_line { All (λ byte. byte ≢ 10) line.now }
    ensures { IfOk result (λ read. read ≡ line_from (lexed_line number line.now)) }
{
    match lex_lp(alloc, line, number) {
        Ok(tokens) => {
            if tokens.as_slice().is_empty() {
                Ok(Line::Nothing)
            } else {
                said(alloc, &tokens)
            }
        }
        Err(LexRefusal::Lex(_pos)) => Ok(Line::Command(CommandKind::Bad(Code::Lex))),
        Err(LexRefusal::Memory) => Err(Memory),
    }
}

// What tokens are, of which there is at least one.
fn said(alloc: Global, tokens: &Tokens) -> Result<Line, Memory>
    ensures { IfOk result (λ read. read ≡ said tokens.now) }
{
    if says(tokens.as_slice(), 0, b"duty") {
        return Ok(match duty(tokens.as_slice()) {
            Some(label) => Line::Duty(label),
            None => Line::Command(CommandKind::Bad(Code::Command)),
        });
    }
    match command_of(alloc, tokens)? {
        Some(kind) => Ok(Line::Command(kind)),
        None => Ok(Line::Command(CommandKind::Bad(Code::Command))),
    }
}

// The mark behind the blanks of a line, whatever follows it: true for `[]`, false for `<>`.
fn mark_of(line: &[u8]) -> Option<bool>
    ensures { result ≡ mark_of line.now }
{
    let mut rest = line;
    while let [byte, others @ ..] = rest {
        if !is_blank(*byte) {
            return mark_at(*byte, others);
        }
        rest = others;
    }
    None
}

fn is_blank(byte: u8) -> bool
    ensures { result ≡ is_blank byte }
{
    matches!(byte, b'\t' | b'\n' | b'\r' | b' ')
}

fn mark_at(byte: u8, rest: &[u8]) -> Option<bool>
    ensures { result ≡ mark_at byte rest.now }
{
    match (byte, rest) {
        (b'[', [b']', ..]) => Some(true),
        (b'<', [b'>', ..]) => Some(false),
        _ => None,
    }
}
