ghost use Rattle.std.specs.Prelude.{◌≡◌, Ok, Err, List, Bool, true, false, IfOk, IfErr, OnOk};
ghost use Rattle.larch_certificate.specs.declared.line.Line.{Line};
ghost use Rattle.larch_certificate_reader.specs.JoinedLines.{join_lines};
ghost use Rattle.larch_certificate_reader.specs.Refusals.{IfForm};
ghost use Rattle.larch_certificate_reader.specs.declared.certificate.FormRefusal.TheVariants.{Memory as wants_memory};
ghost use Rattle.larch_certificate_text.specs.CertificateText.{IsFirstOutside, IsTextOf, read_certificate, read_lines};
ghost use Rattle.larch_certificate_text.specs.CertificateText.{version_of};
ghost use Rattle.larch_certificate_text.specs.ListText.{split_at};

use crate::line::read_line;
use crate::names::Names;
use crate::parts::cut_at;
use larch_base::{Memory, Sequence, let_go};
use larch_certificate::Certificate;
use larch_certificate_text::Here;
use std::alloc::Global;
use thiserror::Error;

/// A certificate and which version its text has.
#[derive(Drop)]
pub struct Versioned {
    /// The second version: lines are named by distances, and parts have names.
    pub second: bool,
    pub lines: Certificate,
}

/// Why a text is no certificate.
#[derive(Clone, Copy, Debug, PartialEq, Eq, Error)]
pub enum FormRefusal {
    /// The number, from 1, of the first text line that is outside the grammar.
    #[error("text line {0} is outside the grammar")]
    Form(u64),
    /// Out of memory.
    #[error("out of memory")]
    Memory,
}

impl From<Memory> for FormRefusal {
    ghost from_gives = { λ _ refusal. refusal ≡ wants_memory };

    fn from(_memory: Memory) -> FormRefusal {
        FormRefusal::Memory
    }
}

/// The certificate whose text of the first version this is. A text that is no certificate is refused at its first
/// line outside the grammar; `Memory` comes only out of memory. The time is linear in the text.
#[tactic(auto, using(crate::proofs::Lines::first_text, crate::proofs::Lines::first_read, larch_certificate_text::proofs::CertificateLaws::certificate_outside))]
pub fn read_certificate(alloc: Global, text: &[u8]) -> Result<Certificate, FormRefusal>
    ensures text { IfOk result (λ c. IsTextOf text.now false c) }
    ensures outside { IfErr result (λ refusal. IfForm refusal (λ n. IsFirstOutside false text.now n)) }
    ensures none { IfErr result (λ refusal. IfForm refusal (λ n. (c : List Line) → IsTextOf text.now false c → ⊥)) }
    ensures read { IfOk result (λ c. read_certificate false text.now ≡ Ok (false, c)) }
    ensures refused { IfErr result (λ refusal. IfForm refusal (λ n. read_certificate false text.now ≡ Err n)) }
{
    match read_version(alloc, false, text) {
        Ok(Versioned { second: _, lines }) => Ok(lines),
        Err(refusal) => Err(refusal),
    }
}

/// The certificate whose text this is, in either version, and which. A text that is no certificate of either is refused
/// at its first line outside the grammar; `Memory` comes only out of memory.
#[tactic(auto, using(larch_certificate_text::proofs::CertificateLaws::certificate_back, larch_certificate_text::proofs::CertificateLaws::certificate_outside))]
pub fn read_either(alloc: Global, text: &[u8]) -> Result<Versioned, FormRefusal>
    ensures text { IfOk result (λ c. IsTextOf text.now c.second c.lines) }
    ensures outside { IfErr result (λ refusal. IfForm refusal (λ n. IsFirstOutside true text.now n)) }
    ensures none { IfErr result (λ refusal. IfForm refusal (λ n.
        (v : Bool) (c : List Line) → IsTextOf text.now v c → ⊥)) }
    ensures read { IfOk result (λ c. read_certificate true text.now ≡ Ok (c.second, c.lines)) }
    ensures refused { IfErr result (λ refusal. IfForm refusal (λ n. read_certificate true text.now ≡ Err n)) }
{
    read_version(alloc, true, text)
}

#[tactic(auto, unfolding(larch_certificate_text::specs::CertificateText::read_certificate), using(crate::proofs::Lines::header_cut, crate::proofs::Lines::header_bad, crate::proofs::Lines::header_uncut))]
fn read_version(alloc: Global, either: bool, text: &[u8]) -> Result<Versioned, FormRefusal>
    ensures ok { IfOk result (λ c. read_certificate either text.now ≡ Ok (c.second, c.lines)) }
    ensures err { IfErr result (λ refusal. IfForm refusal (λ n. read_certificate either text.now ≡ Err n)) }
{
    let Some((first, rest)) = cut_at(b'\n', text) else {
        return Err(FormRefusal::Form(1));
    };
    let Some(second) = version_of(either, first) else {
        return Err(FormRefusal::Form(1));
    };
    match read_lines(alloc, second, rest) {
        Ok(lines) => Ok(Versioned { second, lines }),
        Err(refusal) => Err(refusal),
    }
}

fn version_of(either: bool, line: &[u8]) -> Option<bool>
    ensures { result ≡ version_of either line.now }
{
    if line == b"certificate 1".as_slice() {
        return Some(false);
    }
    if either && line == b"certificate 2".as_slice() {
        return Some(true);
    }
    None
}

#[tactic(auto, using(crate::proofs::Lines::joined_none))]
fn read_lines(alloc: Global, relative: bool, text: &[u8]) -> Result<Certificate, FormRefusal>
    ensures ok { IfOk result (λ lines. read_lines relative 1 (split_at 10 text.now) ≡ Ok lines) }
    ensures err { IfErr result (λ refusal. IfForm refusal (λ n. read_lines relative 1 (split_at 10 text.now) ≡ Err n)) }
{
    let mut names = Names::new(alloc)?;
    let mut lines = Sequence::new(alloc);
    match read_onto(&mut names, relative, text, &mut lines) {
        Ok(()) => Ok(let_go(lines, names)),
        Err(refusal) => Err(let_go(refusal, (names, lines))),
    }
}

// Puts the lines of the text behind those that are there.
#[tactic(auto, using(crate::proofs::Lines::line_bad, crate::proofs::Lines::lines_end, crate::proofs::ListSteps::cut_shorter))]
fn read_onto(
    names: &mut Names,
    relative: bool,
    text: &[u8],
    lines: &mut Certificate,
) -> Result<(), FormRefusal>
    ensures ok { OnOk result (join_lines lines.old (read_lines relative 1 (split_at 10 text.now)) ≡ Ok lines.new) }
    ensures err { IfErr result (λ refusal. IfForm refusal (λ n.
        join_lines lines.old (read_lines relative 1 (split_at 10 text.now)) ≡ Err n)) }
{
    let mut number: u64 = 1;
    let mut rest = text;
    'lines: while let Some((first, others)) = cut_at(b'\n', rest) {
        let here = Here {
            relative,
            line: number,
        };
        let Some(line) = read_line(names, here, first)? else {
            return Err(FormRefusal::Form(number + 1));
        };
        lines.push(line)?;
        number += 1;
        rest = others;
    }
    if !rest.is_empty() {
        return Err(FormRefusal::Form(number + 1));
    }
    Ok(())
}
