ghost use Rattle.std.specs.Prelude.{◌≡◌, ◌++◌, ◌∷◌, decimal, OnOk};
ghost use Rattle.larch_certificate_printer.specs.Number.{number_spelled};
ghost use Rattle.larch_certificate_text.specs.Parts.{ref_text};
ghost use Rattle.larch_certificate_text.specs.SymbolText.{built_in_text, symbol_text};

use larch_base::Memory;
use larch_certificate::Symbol;
use larch_certificate_text::{Here, Text};
use larch_term::BuiltIn;
use std::alloc::Global;

/// What a number in a list counts.
#[derive(Clone, Copy)]
pub enum NumberKind {
    /// An argument of a term.
    Argument,
    /// A line or a box.
    Line,
    /// An operator of the theory.
    Operator,
}

/// Puts a number at the end.
pub fn write_number(alloc: Global, text: &mut Text, number: u64) -> Result<(), Memory>
    ensures { OnOk result (text.new ≡ text.old ++ decimal number) }
{
    let digits = number.to_string(alloc)?;
    text.append(digits.as_bytes())?;
    Ok(())
}

/// Puts the name of a line at the end.
pub fn write_ref(alloc: Global, text: &mut Text, here: Here, line: u64) -> Result<(), Memory>
    ensures { OnOk result (text.new ≡ text.old ++ ref_text here line) }
{
    if !here.relative {
        return write_number(alloc, text, line);
    }
    if line <= here.line {
        return write_number(alloc, text, here.line - line);
    }
    text.push(b'+')?;
    write_number(alloc, text, line - here.line)
}

/// Puts a number of a list at the end.
pub fn write_kind(
    alloc: Global,
    text: &mut Text,
    here: Here,
    kind: NumberKind,
    number: u64,
) -> Result<(), Memory>
    ensures { OnOk result (text.new ≡ text.old ++ number_spelled here kind number) }
{
    match kind {
        NumberKind::Argument => write_number(alloc, text, number),
        NumberKind::Line => write_ref(alloc, text, here, number),
        NumberKind::Operator => {
            text.push(b'#')?;
            write_number(alloc, text, number)
        }
    }
}

/// Puts a symbol at the end.
pub fn write_symbol(
    alloc: Global,
    text: &mut Text,
    here: Here,
    symbol: Symbol,
) -> Result<(), Memory>
    ensures { OnOk result (text.new ≡ text.old ++ symbol_text here symbol) }
{
    match symbol {
        Symbol::Own(number) => {
            text.push(b'#')?;
            write_number(alloc, text, number)?;
        }
        Symbol::Constant(line, number) => {
            text.push(b'@')?;
            write_ref(alloc, text, here, line)?;
            text.push(b'.')?;
            write_number(alloc, text, number)?;
        }
        Symbol::BuiltIn(built_in) => {
            text.append(built_in_text(built_in))?;
        }
    }
    Ok(())
}

fn built_in_text(built_in: BuiltIn) -> &'static [u8]
    ensures { result.now ≡ built_in_text built_in }
{
    match built_in {
        BuiltIn::True => b"true",
        BuiltIn::False => b"false",
        BuiltIn::If => b"if",
        BuiltIn::Not => b"~",
        BuiltIn::And => b"/\\",
        BuiltIn::Or => b"\\/",
        BuiltIn::Implies => b"=>",
        BuiltIn::Iff => b"<=>",
        BuiltIn::Equal => b"=",
        BuiltIn::Unequal => b"~=",
    }
}
