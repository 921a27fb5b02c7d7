ghost use Rattle.std.specs.Prelude.{◌≡◌, IfOk};
ghost use Rattle.larch_grammar.specs.Trees.{bracket_form, field_name, infix_name, mixfix, plain_form, postfix_name, prefix_name};

use crate::names::{
    bracket_behind_name, bracket_name, field_name, infix_name, postfix_name, prefix_name,
};
use crate::terminal::Bracket;
use larch_base::{Memory, Name, Pos};
use larch_raw::{RawForm, RawWord};
use std::alloc::Global;

// A form that is no bare word.
fn mixfix(name: Name, markers: u32, pos: Pos) -> RawForm
    ensures { result ≡ mixfix name markers pos }
{
    RawForm {
        name,
        word: false,
        markers,
        pos,
    }
}

/// A form that is a bare word.
pub fn plain_form(word: RawWord) -> RawForm
    ensures { result ≡ plain_form word }
{
    let RawWord { name, pos } = word;
    RawForm {
        name,
        word: true,
        markers: 0,
        pos,
    }
}

/// A symbol alone.
pub fn infix_form(alloc: Global, pos: Pos, symbol: RawWord) -> Result<RawForm, Memory>
    ensures { IfOk result (λ form. form ≡ mixfix (infix_name symbol.name) 2 pos) }
{
    let name = infix_name(alloc, &symbol.name)?;
    Ok(mixfix(name, 2, pos))
}

/// A symbol before a marker.
pub fn prefix_form(alloc: Global, symbol: RawWord) -> Result<RawForm, Memory>
    ensures { IfOk result (λ form. form ≡ mixfix (prefix_name symbol.name) 1 symbol.pos) }
{
    let name = prefix_name(alloc, &symbol.name)?;
    Ok(mixfix(name, 1, symbol.pos))
}

/// A symbol behind a marker, which stands there.
pub fn postfix_form(alloc: Global, pos: Pos, symbol: RawWord) -> Result<RawForm, Memory>
    ensures { IfOk result (λ form. form ≡ mixfix (postfix_name symbol.name) 1 pos) }
{
    let name = postfix_name(alloc, &symbol.name)?;
    Ok(mixfix(name, 1, pos))
}

/// A field; the form begins there.
pub fn field_form(alloc: Global, pos: Pos, word: RawWord) -> Result<RawForm, Memory>
    ensures { IfOk result (λ form. form ≡ mixfix (field_name word.name) 1 pos) }
{
    let name = field_name(alloc, &word.name)?;
    Ok(mixfix(name, 1, pos))
}

/// A bracket as a form, with the position where it begins, and whether a marker stands in front of it.
pub fn bracket_form(
    alloc: Global,
    behind: bool,
    bracket: Bracket,
    markers: u32,
    pos: Pos,
) -> Result<RawForm, Memory>
    ensures { IfOk result (λ form. form ≡ bracket_form behind bracket markers pos) }
{
    if behind {
        let name = bracket_behind_name(alloc, bracket, markers as usize)?;
        let all = markers.checked_add(1).ok_or(Memory)?;
        Ok(mixfix(name, all, pos))
    } else {
        let name = bracket_name(alloc, bracket, markers as usize)?;
        Ok(mixfix(name, markers, pos))
    }
}
