ghost use Rattle.std.specs.Prelude.{◌≡◌, ◌++◌, IfOk, None, OnOk, Some};
ghost use Rattle.larch_session_derive_meaning.specs.Derived.{derivation_reply, length_line};

use larch_base::{Bytes, Memory};
use larch_certificate::Certificate;
use larch_certificate_printer::print_second;
use std::alloc::Global;

/// What is replied where a derivation is asked for: its length and its text, or that there is none.
pub fn derivation_reply(alloc: Global, derived: &Option<Certificate>) -> Result<Bytes, Memory>
    ensures { IfOk result (λ reply. reply ≡ derivation_reply derived.now) }
{
    match derived {
        Some(lines) => certificate_reply(alloc, lines),
        None => none_reply(alloc),
    }
}

fn certificate_reply(alloc: Global, lines: &Certificate) -> Result<Bytes, Memory>
    ensures { IfOk result (λ reply. reply ≡ derivation_reply (Some lines.now)) }
{
    let mut reply = Bytes::new(alloc);
    append_certificate(alloc, &mut reply, lines)?;
    Ok(reply)
}

fn none_reply(alloc: Global) -> Result<Bytes, Memory>
    ensures { IfOk result (λ reply. reply ≡ derivation_reply None) }
{
    let mut reply = Bytes::new(alloc);
    reply.append(b"none\n")?;
    Ok(reply)
}

// Puts the length of a certificate's text and the text at the end.
fn append_certificate(alloc: Global, reply: &mut Bytes, lines: &Certificate) -> Result<(), Memory>
    ensures { OnOk result (reply.new ≡ reply.old ++ derivation_reply (Some lines.now)) }
{
    let text = print_second(alloc, lines)?;
    append_length(alloc, reply, text.bytes().len())?;
    reply.append(text.bytes())
}

fn append_length(alloc: Global, reply: &mut Bytes, length: usize) -> Result<(), Memory>
    ensures { OnOk result (reply.new ≡ reply.old ++ length_line length) }
{
    let said = format!(in alloc; "derivation {length}\n")?;
    reply.append(said.as_bytes())
}
