ghost use Rattle.std.specs.Prelude.{◌≡◌, ◌++◌, true, false, IfOk, OnOk};
ghost use Rattle.larch_certificate_text.specs.CertificateText.{certificate_text, header};

use crate::line::write_line;
use larch_base::{Bytes, Memory};
use larch_certificate::{Certificate, Line};
use larch_certificate_text::{Here, Text};
use std::alloc::Global;

/// The text of a certificate in the first version: lines have numbers and are named by them, parts are told by their
/// places. Terms may be of any depth; what waits is kept in memory. The time is linear in the text.
pub fn print_certificate(alloc: Global, certificate: &Certificate) -> Result<Bytes, Memory>
    ensures { IfOk result (λ text. text ≡ certificate_text false certificate.now) }
{
    let mut text = Text::new(alloc);
    write_certificate(alloc, &mut text, false, certificate.as_slice())?;
    Ok(text.into_bytes())
}

/// The text of a certificate in the second version: lines are named by distances, and parts have names.
pub fn print_second(alloc: Global, certificate: &Certificate) -> Result<Bytes, Memory>
    ensures { IfOk result (λ text. text ≡ certificate_text true certificate.now) }
{
    let mut text = Text::new(alloc);
    write_certificate(alloc, &mut text, true, certificate.as_slice())?;
    Ok(text.into_bytes())
}

fn write_certificate(
    alloc: Global,
    text: &mut Text,
    relative: bool,
    lines: &[Line],
) -> Result<(), Memory>
    ensures { OnOk result (text.new ≡ text.old ++ certificate_text relative lines.now) }
{
    text.append(header(relative))?;
    text.push(b'\n')?;
    let mut number: u64 = 1;
    for line in lines {
        let here = Here {
            relative,
            line: number,
        };
        write_line(alloc, text, here, line)?;
        text.push(b'\n')?;
        number += 1;
    }
    Ok(())
}

fn header(relative: bool) -> &'static [u8]
    ensures { result.now ≡ header relative }
{
    if relative {
        b"certificate 2"
    } else {
        b"certificate 1"
    }
}
