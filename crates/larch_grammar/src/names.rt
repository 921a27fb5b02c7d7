ghost use Rattle.std.specs.Prelude.{◌≡◌, ◌++◌, IfOk, OnOk};
ghost use Rattle.larch_grammar.specs.Trees.{bracket_behind_name, bracket_name, brackets, field_name, if_name, infix_name, markers, more_markers, postfix_name, prefix_name};

use crate::terminal::Bracket;
use larch_base::{Bytes, Memory, Name};
use std::alloc::Global;

// `__ + __`.
pub(crate) fn infix_name(alloc: Global, symbol: &Name) -> Result<Name, Memory>
    ensures { IfOk result (λ name. name ≡ infix_name symbol.now) }
{
    spelling_between(alloc, b"__ ", symbol, b" __")
}

// `- __`.
pub(crate) fn prefix_name(alloc: Global, symbol: &Name) -> Result<Name, Memory>
    ensures { IfOk result (λ name. name ≡ prefix_name symbol.now) }
{
    spelling_between(alloc, b"", symbol, b" __")
}

// `__ !`.
pub(crate) fn postfix_name(alloc: Global, symbol: &Name) -> Result<Name, Memory>
    ensures { IfOk result (λ name. name ≡ postfix_name symbol.now) }
{
    spelling_between(alloc, b"__ ", symbol, b"")
}

// `__.first`.
pub(crate) fn field_name(alloc: Global, word: &Name) -> Result<Name, Memory>
    ensures { IfOk result (λ name. name ≡ field_name word.now) }
{
    spelling_between(alloc, b"__.", word, b"")
}

// A name with something before it and behind it.
fn spelling_between(
    alloc: Global,
    before: &[u8],
    name: &Name,
    behind: &[u8],
) -> Result<Name, Memory>
    ensures { IfOk result (λ whole. whole ≡ before.now ++ (name.now ++ behind.now)) }
{
    let mut text = Bytes::new(alloc);
    text.append(before)?;
    text.append(name.bytes())?;
    text.append(behind)?;
    let whole = Name::new(alloc, text.bytes())?;
    Ok(whole)
}

// `if __ then __ else __`.
pub(crate) fn if_name(alloc: Global) -> Result<Name, Memory>
    ensures { IfOk result (λ name. name ≡ if_name) }
{
    let name = Name::new(alloc, b"if __ then __ else __")?;
    Ok(name)
}

// `[__, __]` with so many operands inside.
pub(crate) fn bracket_name(alloc: Global, bracket: Bracket, operands: usize) -> Result<Name, Memory>
    ensures { IfOk result (λ name. name ≡ bracket_name bracket operands) }
{
    let mut text = Bytes::new(alloc);
    write_bracket(bracket, operands, &mut text)?;
    let name = Name::new(alloc, text.bytes())?;
    Ok(name)
}

// `__[__]`.
pub(crate) fn bracket_behind_name(
    alloc: Global,
    bracket: Bracket,
    operands: usize,
) -> Result<Name, Memory>
    ensures { IfOk result (λ name. name ≡ bracket_behind_name bracket operands) }
{
    let mut text = Bytes::new(alloc);
    text.append(b"__")?;
    write_bracket(bracket, operands, &mut text)?;
    let name = Name::new(alloc, text.bytes())?;
    Ok(name)
}

// Puts a bracket with so many markers at the end of a text.
fn write_bracket(bracket: Bracket, operands: usize, text: &mut Bytes) -> Result<(), Memory>
    ensures { OnOk result (text.new ≡ text.old ++ bracket_name bracket operands) }
{
    let (opening, closing) = match bracket {
        Bracket::Square => (b"[", b"]"),
        Bracket::Curly => (b"{", b"}"),
    };
    text.append(opening)?;
    write_markers(operands, text)?;
    text.append(closing)?;
    Ok(())
}

// Puts so many markers at the end of a text.
#[tactic(auto, using(crate::proofs::Markers::some_markers))]
fn write_markers(operands: usize, text: &mut Bytes) -> Result<(), Memory>
    ensures { OnOk result (text.new ≡ text.old ++ markers operands) }
{
    if operands > 0 {
        text.append(b"__")?;
        write_more(operands - 1, text)?;
    }
    Ok(())
}

// Puts so many markers more at the end of a text.
fn write_more(markers: usize, text: &mut Bytes) -> Result<(), Memory>
    ensures { OnOk result (text.new ≡ text.old ++ more_markers markers) }
{
    for _marker in 0..markers {
        text.append(b", __")?;
    }
    Ok(())
}
