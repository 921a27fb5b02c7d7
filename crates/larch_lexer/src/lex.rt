ghost use Rattle.std.specs.Prelude.{◌≡◌, ◌≢◌, ◌≤◌, ◌+◌, ◌<◌, ◌^◌, length, ◌++◌, All, OnOk};
ghost use Rattle.larch_base.specs.Position.{advance};
ghost use Rattle.larch_base.specs.declared.limits.TheConstants.{MAX_FILE_BYTES};
ghost use Rattle.larch_base.specs.Answering.{Answers};
ghost use Rattle.larch_lexer.specs.Lexing.{lexing_of, lexed_line, lexed_within, line_ends, tokens_of};
ghost use Rattle.larch_lexer.specs.Refusal.{cause};

use crate::names::Names;
use crate::piece::{Piece, piece_at};
use crate::refusal::LexRefusal;
use crate::token::Token;
use crate::tokens::Tokens;
use larch_base::{Memory, Pos, Sequence};
use std::alloc::Global;

/// The tokens of a text, or the position of the first byte that begins none. The law `one_lexing` says that this is
/// the one answer of the token table.
#[tactic(auto, unfolding(crate::specs::Lexing::lexing_of), using(crate::proofs::Positions::line_ends_within))]
pub fn lex_lsl(alloc: Global, text: &[u8]) -> Result<Tokens, LexRefusal>
    requires { length text.now ≤ MAX_FILE_BYTES }
    ensures { Answers cause result (lexing_of text.now) }
{
    lex_from(alloc, Pos::start(), text)
}

/// The tokens of one line of a script, its newline left out, which is the line of this number; or the position of the
/// first byte that begins none. The law `one_lexing` says that this is the one answer of the token table.
#[tactic(auto, unfolding(crate::specs::Lexing::lexed_line), using(crate::proofs::Positions::no_line_ends))]
pub fn lex_lp(alloc: Global, line: &[u8], number: u32) -> Result<Tokens, LexRefusal>
    requires short { length line.now ≤ MAX_FILE_BYTES }
    requires one_line { All (λ byte. byte ≢ 10) line.now }
    ensures { Answers cause result (lexed_line number line.now) }
{
    let start = Pos {
        line: number,
        column: 1,
    };
    lex_from(alloc, start, line)
}

/// The tokens of a text that begins at a position.
#[inline(never)]
fn lex_from(alloc: Global, start: Pos, text: &[u8]) -> Result<Tokens, LexRefusal>
    requires line { start.line + line_ends text.now < 2 ^ 32 }
    requires column { start.column + length text.now < 2 ^ 32 }
    ensures { Answers cause result (lexed_within 0 start text.now) }
{
    let mut names = Names::new(alloc, text.len())?;
    let mut tokens = Sequence::new(alloc);
    let mut pos = start;
    let mut rest = text;
    while let [byte, others @ ..] = rest {
        if *byte == b' ' {
            pos = pos.advance(b' ');
            rest = others;
            continue;
        }
        let piece = piece_at(*byte, others);
        let Some(further) = piece.further() else {
            return Err(LexRefusal::Lex(pos));
        };
        let (taken, left) = rest.split_at(further + 1);
        push_token(&mut names, &mut tokens, piece, taken, pos)?;
        pos = pos_behind(pos, *byte, further);
        rest = left;
    }
    Ok(Tokens::new(tokens, pos))
}

/// Adds the piece to the tokens, if it is a token and not passed over.
fn push_token(
    names: &mut Names,
    tokens: &mut Sequence<Token>,
    piece: Piece,
    taken: &[u8],
    pos: Pos,
) -> Result<(), Memory>
    ensures { OnOk result (tokens.new ≡ tokens.old ++ tokens_of piece taken.now pos) }
{
    if let Piece::Kept(kind, _further) = piece {
        let text = names.name(taken)?;
        tokens.push(Token { kind, text, pos })?;
    }
    Ok(())
}

/// The position behind a piece that begins at a position, by its first byte and how many bytes it has behind that one.
/// None of these ends a line.
fn pos_behind(pos: Pos, byte: u8, further: usize) -> Pos
    requires line { byte ≡ 10 → pos.line + 1 < 2 ^ 32 }
    requires column { pos.column + (further + 1) < 2 ^ 32 }
    ensures { result ≡ record { line = (advance pos byte).line; column = (advance pos byte).column + further } }
{
    let next = pos.advance(byte);
    Pos {
        line: next.line,
        column: next.column + further as u32,
    }
}
