ghost use Rattle.std.specs.Prelude.{◌≡◌, IfOk, Some, option_map};
ghost use Rattle.larch_grammar.specs.Leading.{behind_first, behind_group, behind_word, open_depth};
ghost use Rattle.larch_grammar.specs.Refused.{earlier, implied_tokens, is_implies, known, reaches, reaches_end};
ghost use Rattle.larch_syntax.specs.Refused.{counted, position, refused};

use crate::refusal::SyntaxRefusal;
use larch_base::{Memory, Pos};
use larch_grammar::{Terminal, ends_reference, terminal_of};
use larch_lexer::{Token, Tokens};

// Of the refusals where an item follows `implies` and where references follow, the one that stands.
#[tactic(auto, using(crate::proofs::Which::list_stands, crate::proofs::Which::counted_stands, crate::proofs::Which::later_stands, crate::proofs::Which::item_stands))]
pub(crate) fn which_refusal(
    tokens: &Tokens,
    item: SyntaxRefusal,
    list: SyntaxRefusal,
) -> SyntaxRefusal
    ensures { refused tokens.now item list result }
{
    let (Some(before), Some(position)) = (position_of(item), position_of(list)) else {
        return SyntaxRefusal::Memory;
    };
    match reaches(tokens, position) {
        Ok(true) => list,
        Ok(false) if is_counted(item) => item,
        Ok(false) if earlier(before, position) => list,
        Ok(false) => item,
        Err(Memory) => SyntaxRefusal::Memory,
    }
}

// The position of a refusal.
pub(crate) fn position_of(refusal: SyntaxRefusal) -> Option<Pos>
    ensures { result ≡ position refusal }
{
    match refusal {
        SyntaxRefusal::Syntax(pos)
        | SyntaxRefusal::Mixed(pos)
        | SyntaxRefusal::Deep(pos)
        | SyntaxRefusal::Large(pos) => Some(pos),
        SyntaxRefusal::Memory => None,
    }
}

// Whether it is MIXED, DEEP or SIZE.
fn is_counted(refusal: SyntaxRefusal) -> bool
    ensures { result ≡ counted refusal }
{
    matches!(
        refusal,
        SyntaxRefusal::Mixed(_) | SyntaxRefusal::Deep(_) | SyntaxRefusal::Large(_)
    )
}

// Whether a position stands before another one.
fn earlier(position: Pos, other: Pos) -> bool
    ensures { result ≡ earlier position other }
{
    position.line < other.line || position.line == other.line && position.column < other.column
}

// Whether what stands behind `implies` begins with a reference, and the position isn't inside its parenthesis.
fn reaches(tokens: &Tokens, position: Pos) -> Result<bool, Memory>
    ensures { IfOk result (λ reached. reached ≡ reaches tokens.now position) }
{
    let implied = behind_implies(tokens.as_slice())?;
    match behind_first(implied)? {
        Some(behind) => reaches_end(behind, position, tokens.end()),
        None => Ok(false),
    }
}

// Whether a list of references ends before these tokens or goes on with them, and the position isn't before them.
fn reaches_end(tokens: &[Token], position: Pos, end: Pos) -> Result<bool, Memory>
    ensures { IfOk result (λ reached. reached ≡ reaches_end position end (Some tokens.now)) }
{
    let [first, ..] = tokens else {
        return Ok(!earlier(position, end));
    };
    let terminal = terminal_of(false, first)?;
    Ok(ends_reference(&terminal) && !earlier(position, first.pos))
}

// The tokens behind `implies`; none where it stands nowhere.
#[tactic(auto, using(crate::proofs::Behind::none_implied))]
fn behind_implies<'a>(tokens: &'a [Token]) -> Result<&'a [Token], Memory>
    ensures { IfOk result (λ behind. behind.now ≡ implied_tokens tokens.now) }
{
    let mut rest = tokens;
    while let [token, others @ ..] = rest {
        if is_implies(token)? {
            return Ok(others);
        }
        rest = others;
    }
    Ok(rest)
}

// Whether a token is `implies`.
#[tactic(auto, using(crate::proofs::Behind::other_token))]
fn is_implies(token: &Token) -> Result<bool, Memory>
    ensures { IfOk result (λ found. found ≡ is_implies (known token.now)) }
{
    match terminal_of(false, token)? {
        Terminal::Implies(_lists) => Ok(true),
        _ => Ok(false),
    }
}

// What stands behind the word that comes first and behind its parenthesis, if there is such a word.
#[tactic(auto, using(crate::proofs::Behind::other_first))]
fn behind_first<'a>(tokens: &'a [Token]) -> Result<Option<&'a [Token]>, Memory>
    ensures { IfOk result (λ behind. option_map (λ ts. ts.now) behind ≡ behind_first known tokens.now) }
{
    let [first, others @ ..] = tokens else {
        return Ok(None);
    };
    match terminal_of(false, first)? {
        Terminal::Word(_word) => behind_word(others),
        _ => Ok(None),
    }
}

// The same of the tokens behind the word.
#[tactic(auto, using(crate::proofs::Behind::other_second))]
fn behind_word<'a>(tokens: &'a [Token]) -> Result<Option<&'a [Token]>, Memory>
    ensures { IfOk result (λ behind. option_map (λ ts. ts.now) behind ≡ behind_word known tokens.now) }
{
    let [second, others @ ..] = tokens else {
        return Ok(Some(tokens));
    };
    match terminal_of(false, second)? {
        Terminal::Open(_pos) => behind_group(others),
        Terminal::Generated | Terminal::Partitioned => Ok(None),
        _ => Ok(Some(tokens)),
    }
}

// What stands behind the `)` that closes the parenthesis of which these are the tokens inside and behind.
fn behind_group<'a>(tokens: &'a [Token]) -> Result<Option<&'a [Token]>, Memory>
    ensures { IfOk result (λ behind. option_map (λ ts. ts.now) behind ≡ behind_group known 0 tokens.now) }
{
    let mut inside: usize = 0;
    let mut rest = tokens;
    while let [token, others @ ..] = rest {
        match open_depth(terminal_of(false, token)?, inside)? {
            Some(more) => {
                inside = more;
                rest = others;
            }
            None => return Ok(Some(others)),
        }
    }
    Ok(None)
}

// How many parentheses are open behind a token, where so many are inside a group before it; nothing where it closes
// the group.
#[tactic(auto, using(crate::proofs::Behind::one_closed, crate::proofs::Behind::other_opened))]
fn open_depth(terminal: Terminal, inside: usize) -> Result<Option<usize>, Memory>
    ensures { IfOk result (λ more. more ≡ open_depth terminal inside) }
{
    match terminal {
        Terminal::Open(_pos) => {
            let more = inside.checked_add(1).ok_or(Memory)?;
            Ok(Some(more))
        }
        Terminal::Close => {
            if inside == 0 {
                return Ok(None);
            }
            Ok(Some(inside - 1))
        }
        _ => Ok(Some(inside)),
    }
}
