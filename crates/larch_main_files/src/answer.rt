ghost use Rattle.std.specs.Prelude.{◌≡◌, ℕ, IfErr, IfOk, OnOk, Some};
ghost use Rattle.larch_main_files.specs.Answer.{TellsAnswer, answer_to, good_or_remains, no_file, report_answer, said};
ghost use Rattle.larch_main_files.specs.Look.{GatherFaults};
ghost use Rattle.larch_main_status.specs.Faults.{HaltFaults};

use crate::gather::GatherRefusal;
use larch_base::{Bytes, Memory, Name};
use larch_io::Sink;
use larch_main_status::{Halt, Status, say_at_end};
use larch_report::{ReportLine, counts_of, is_good, report_text};
use std::alloc::Global;

/// A text that is to be written at the end, and the status beside it.
#[derive(Drop)]
pub struct Answer {
    pub text: Bytes,
    pub status: Status,
}

/// This text, and this status beside it.
pub fn said(alloc: Global, words: &[u8], status: Status) -> Result<Answer, Memory>
    ensures { IfOk result (λ answer. answer ≡ said words.now status) }
{
    let mut text = Bytes::new(alloc);
    text.append(words)?;
    Ok(Answer { text, status })
}

/// What is answered where something isn't gathered: that a file isn't there or that a limit is passed; or there is no
/// answer, since the folder failed or memory ran out.
pub fn answer_to(alloc: Global, refusal: GatherRefusal) -> Result<Answer, Halt>
    ensures answer { IfOk result (λ answer. answer_to refusal ≡ Some answer) }
    ensures fine { OnOk result ((before now : ℕ) → GatherFaults refusal before now → now ≡ before) }
    ensures halt { IfErr result (λ halt. (before now : ℕ)
        → GatherFaults refusal before now → HaltFaults halt before now) }
{
    match refusal {
        GatherRefusal::Absent(name) => Ok(no_file(alloc, &name)?),
        GatherRefusal::TooLarge => Ok(said(alloc, b"too large\n", Status::Size)?),
        GatherRefusal::ReadFault => Err(Halt::ReadFault),
        GatherRefusal::Memory => Err(Halt::Memory),
    }
}

// There is no file of this name.
fn no_file(alloc: Global, name: &Name) -> Result<Answer, Memory>
    ensures { IfOk result (λ answer. answer ≡ no_file name.now) }
{
    let mut text = Bytes::new(alloc);
    text.append(b"no file ")?;
    text.append(name.bytes())?;
    text.append(b"\n")?;
    Ok(Answer {
        text,
        status: Status::NoFile,
    })
}

/// A report with these lines: its text, and whether in it nothing is wrong and all is proved.
pub fn report_answer(alloc: Global, lines: &[ReportLine]) -> Result<Answer, Memory>
    ensures { IfOk result (λ answer. answer ≡ report_answer lines.now) }
{
    let status = good_or_remains(is_good(counts_of(lines)));
    match report_text(alloc, lines) {
        Ok(text) => Ok(Answer { text, status }),
        Err(memory) => Err(memory),
    }
}

/// Whether all is good, as a status.
pub fn good_or_remains(good: bool) -> Status
    ensures { result ≡ good_or_remains good }
{
    if good { Status::Good } else { Status::Remains }
}

/// Writes what is answered and gives its status, or that there was nothing to write, or that it could not be written.
pub fn tell<K: Sink>(sink: &mut K, answered: Result<Answer, Halt>) -> Status
    ensures { TellsAnswer (K.held sink.old) (K.held sink.new) (K.faults sink.old) (K.faults sink.new) answered result }
{
    match answered {
        Ok(answer) => say_at_end(sink, answer.text.bytes(), answer.status),
        Err(Halt::ReadFault) => Status::ReadFault,
        Err(Halt::Memory) => Status::Memory,
    }
}
