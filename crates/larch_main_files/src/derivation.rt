//! The answer where a derivation is wanted.
ghost use Rattle.std.specs.Prelude.{◌≡◌, IfOk, Some};
ghost use Rattle.larch_main_files.specs.Derive.{derivation_answer};

use crate::answer::{Answer, said};
use larch_base::Memory;
use larch_certificate::Certificate;
use larch_certificate_printer::print_second;
use larch_main_status::Status;
use std::alloc::Global;

/// What is answered where a derivation is wanted: the text of what was derived, or that there is nothing.
pub fn derivation_answer(alloc: Global, derived: &Option<Certificate>) -> Result<Answer, Memory>
    ensures { IfOk result (λ answer. answer ≡ derivation_answer derived.now) }
{
    match derived {
        Some(lines) => certificate_answer(alloc, lines),
        None => said(alloc, b"none\n", Status::Remains),
    }
}

// A certificate as it is answered.
fn certificate_answer(alloc: Global, lines: &Certificate) -> Result<Answer, Memory>
    ensures { IfOk result (λ answer. answer ≡ derivation_answer (Some lines.now)) }
{
    let text = print_second(alloc, lines)?;
    Ok(Answer {
        text,
        status: Status::Good,
    })
}
