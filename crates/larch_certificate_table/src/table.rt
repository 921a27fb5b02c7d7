use larch_base::{Bytes, Memory};
use larch_certificate_printer::print_certificate;
use larch_certificate_reader::{FormRefusal, read_either};
use std::alloc::Global;

/// What is printed of the texts, between which there are bytes 0.
pub fn answers(alloc: Global, texts: &[u8]) -> Result<Bytes, Memory> {
    let mut answer = Bytes::new(alloc);
    for text in texts.split(|byte| *byte == 0) {
        put_answer(alloc, text, &mut answer)?;
    }
    Ok(answer)
}

fn put_answer(alloc: Global, text: &[u8], answer: &mut Bytes) -> Result<(), Memory> {
    match read_either(alloc, text) {
        Ok(read) => {
            let printed = print_certificate(alloc, &read.lines)?;
            answer.append(printed.bytes())?;
        }
        Err(FormRefusal::Form(line)) => {
            answer.append(b"malformed at line ")?;
            let number = line.to_string(alloc)?;
            answer.append(number.as_bytes())?;
            answer.append(b"\n")?;
        }
        Err(FormRefusal::Memory) => return Err(Memory),
    }
    answer.append(b"\0")
}
