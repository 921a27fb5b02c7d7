ghost use Rattle.std.specs.Prelude.{◌≡◌, IfOk};
ghost use Rattle.larch_certificate_text.specs.SymbolText.{read_built_in, read_symbol, read_leaf, variable_of, leaf_by};
ghost use Rattle.larch_certificate_reader.specs.Views.{pair_view};

use crate::names::Names;
use crate::parts::{cut_at, read_number, read_ref};
use larch_base::{Memory, is_word};
use larch_certificate::{Coded, CodedTerms, Symbol};
use larch_certificate_text::Here;
use larch_term::BuiltIn;

fn read_built_in(text: &[u8]) -> Option<BuiltIn>
    ensures { result ≡ read_built_in text.now }
{
    match text {
        b"true" => Some(BuiltIn::True),
        b"false" => Some(BuiltIn::False),
        b"if" => Some(BuiltIn::If),
        b"~" => Some(BuiltIn::Not),
        b"/\\" => Some(BuiltIn::And),
        b"\\/" => Some(BuiltIn::Or),
        b"=>" => Some(BuiltIn::Implies),
        b"<=>" => Some(BuiltIn::Iff),
        b"=" => Some(BuiltIn::Equal),
        b"~=" => Some(BuiltIn::Unequal),
        _ => None,
    }
}

/// The symbol that the text is.
pub fn read_symbol(here: Here, text: &[u8]) -> Option<Symbol>
    ensures { result ≡ read_symbol here text.now }
{
    let [first, rest @ ..] = text else {
        return None;
    };
    if *first == b'#' {
        let number = read_number(rest)?;
        Some(Symbol::Own(number))
    } else if *first == b'@' {
        let (left, right) = cut_at(b'.', rest)?;
        let line = read_ref(here, left)?;
        let number = read_number(right)?;
        Some(Symbol::Constant(line, number))
    } else {
        let built_in = read_built_in(text)?;
        Some(Symbol::BuiltIn(built_in))
    }
}

/// The variable, or the symbol without arguments, that the text is.
pub fn read_leaf(names: &mut Names, here: Here, text: &[u8]) -> Result<Option<Coded>, Memory>
    ensures { IfOk result (λ leaf. leaf ≡ read_leaf here text.now) }
{
    if let Some((name, sort)) = cut_at(b':', text) {
        return read_variable(names, name, sort);
    }
    match read_symbol(here, text) {
        Some(symbol) => Ok(Some(Coded::app(symbol, CodedTerms::none()))),
        None => Ok(None),
    }
}

fn read_variable(names: &mut Names, name: &[u8], sort: &[u8]) -> Result<Option<Coded>, Memory>
    ensures { IfOk result (λ leaf. leaf ≡ variable_of (name.now, sort.now)) }
{
    if !is_word(name) || !is_word(sort) {
        return Ok(None);
    }
    let name = names.name(name)?;
    let sort = names.name(sort)?;
    Ok(Some(Coded::var(name, sort)))
}
