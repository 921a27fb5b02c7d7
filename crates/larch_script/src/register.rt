ghost use Rattle.std.specs.Prelude.{◌≡◌, ◌<◌, ◌^◌, IfOk};
ghost use Rattle.larch_script.specs.Commands.{above, height, of_status, registration, status, way_of};

use crate::terms::{reference_at, whole_reference_at};
use crate::tokens::{says, says_dashed};
use larch_base::{Memory, Way};
use larch_lexer::{Token, Tokens};
use larch_raw::RawOpRef;
use larch_script_commands::CommandKind;
use std::alloc::Global;

/// `register` and what it registers.
pub(crate) fn registration(alloc: Global, tokens: &Tokens) -> Result<Option<CommandKind>, Memory>
    ensures { IfOk result (λ kind. kind ≡ registration tokens.now) }
{
    if says(tokens.as_slice(), 1, b"height") {
        height(alloc, tokens)
    } else if says(tokens.as_slice(), 1, b"status") {
        status(alloc, tokens)
    } else {
        Ok(None)
    }
}

// `register height F > G`.
fn height(alloc: Global, tokens: &Tokens) -> Result<Option<CommandKind>, Memory>
    ensures { IfOk result (λ kind. kind ≡ height tokens.now) }
{
    match reference_at(alloc, tokens, 2)? {
        Some((upper, index)) => above(alloc, tokens, upper, index),
        None => Ok(None),
    }
}

// `>` and the lower operator behind the upper one.
fn above(
    alloc: Global,
    tokens: &Tokens,
    upper: RawOpRef,
    index: usize,
) -> Result<Option<CommandKind>, Memory>
    requires { index < 2 ^ 32 }
    ensures { IfOk result (λ kind. kind ≡ above tokens.now (upper, index)) }
{
    if !says(tokens.as_slice(), index, b">") {
        return Ok(None);
    }
    match whole_reference_at(alloc, tokens, index + 1)? {
        Some(lower) => Ok(Some(CommandKind::Height(upper, lower))),
        None => Ok(None),
    }
}

// `register status left-to-right F`, or another status.
fn status(alloc: Global, tokens: &Tokens) -> Result<Option<CommandKind>, Memory>
    ensures { IfOk result (λ kind. kind ≡ status tokens.now) }
{
    match way_of(tokens.as_slice()) {
        Some((way, index)) => of_status(alloc, tokens, way, index),
        None => Ok(None),
    }
}

// The operator of a status.
fn of_status(
    alloc: Global,
    tokens: &Tokens,
    way: Way,
    index: usize,
) -> Result<Option<CommandKind>, Memory>
    ensures { IfOk result (λ kind. kind ≡ of_status tokens.now (way, index)) }
{
    match whole_reference_at(alloc, tokens, index)? {
        Some(operator) => Ok(Some(CommandKind::Status(way, operator))),
        None => Ok(None),
    }
}

// The status behind `register status`, with the index after it.
fn way_of(tokens: &[Token]) -> Option<(Way, usize)>
    ensures { result ≡ way_of tokens.now }
{
    if says(tokens, 2, b"multiset") {
        Some((Way::Multiset, 3))
    } else if says_dashed(tokens, 2, b"left", b"to") && says_dashed(tokens, 4, b"to", b"right") {
        Some((Way::LeftToRight, 7))
    } else if says_dashed(tokens, 2, b"right", b"to") && says_dashed(tokens, 4, b"to", b"left") {
        Some((Way::RightToLeft, 7))
    } else {
        None
    }
}
