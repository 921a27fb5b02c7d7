ghost use Rattle.std.specs.Prelude.{◌≡◌, ◌∷◌, decimal, bytes_eq, IfOk};
ghost use Rattle.larch_certificate_reader.specs.Views.{parts_of};
ghost use Rattle.larch_certificate_text.specs.LineText.{read_line, read_rule, read_rule_word};
ghost use Rattle.larch_certificate_text.specs.ListText.{split_at};

use crate::names::Names;
use crate::parts::{cut_at, read_number};
use crate::rule::read_by_word;
use larch_base::Memory;
use larch_certificate::Line;
use larch_certificate_text::{Here, RuleWord};

/// The line that the text is.
#[tactic(auto, using(crate::proofs::Fields::line_cut, crate::proofs::Fields::line_uncut))]
pub fn read_line(names: &mut Names, here: Here, text: &[u8]) -> Result<Option<Line>, Memory>
    ensures { IfOk result (λ line. line ≡ read_line here text.now) }
{
    if here.relative {
        return read_fields(names, here, text);
    }
    let Some((number, rest)) = cut_at(b' ', text) else {
        return Ok(None);
    };
    if !is_number(number, here.line) {
        return Ok(None);
    }
    read_fields(names, here, rest)
}

#[tactic(auto, using(crate::proofs::Fields::number_test, crate::proofs::Fields::number_test_none))]
fn is_number(text: &[u8], number: u64) -> bool
    ensures { result ≡ bytes_eq text.now (decimal number) }
{
    match read_number(text) {
        Some(found) => found == number,
        None => false,
    }
}

#[tactic(auto, using(crate::proofs::Fields::rule_cut, crate::proofs::Fields::rule_uncut))]
fn read_fields(names: &mut Names, here: Here, text: &[u8]) -> Result<Option<Line>, Memory>
    ensures { IfOk result (λ line. line ≡ read_rule here (split_at 32 text.now)) }
{
    match cut_at(b' ', text) {
        Some((word, parts)) => read_rule(names, here, word, Some(parts)),
        None => read_rule(names, here, text, None),
    }
}

fn read_rule(
    names: &mut Names,
    here: Here,
    word: &[u8],
    parts: Option<&[u8]>,
) -> Result<Option<Line>, Memory>
    ensures { IfOk result (λ line. line ≡ read_rule here (word.now ∷ parts_of parts.entry)) }
{
    match read_rule_word(word) {
        Some(word) => read_by_word(names, here, parts, word),
        None => Ok(None),
    }
}

// The rule that a word names.
fn read_rule_word(text: &[u8]) -> Option<RuleWord>
    ensures { result ≡ read_rule_word text.now }
{
    match text {
        b"axiom" => Some(RuleWord::Axiom),
        b"hyp" => Some(RuleWord::Hyp),
        b"row" => Some(RuleWord::Row),
        b"refl" => Some(RuleWord::Refl),
        b"sym" => Some(RuleWord::Sym),
        b"inst" => Some(RuleWord::Inst),
        b"repl" => Some(RuleWord::Repl),
        b"equal" => Some(RuleWord::Equal),
        b"box" => Some(RuleWord::BoxLine),
        b"done" => Some(RuleWord::Done),
        b"fresh" => Some(RuleWord::Fresh),
        b"cases" => Some(RuleWord::Cases),
        b"induct" => Some(RuleWord::Induct),
        b"observe" => Some(RuleWord::Observe),
        b"generated" => Some(RuleWord::Generated),
        b"partitioned" => Some(RuleWord::Partitioned),
        _ => None,
    }
}
