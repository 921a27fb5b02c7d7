//! A certificate in the second version.
ghost use Rattle.std.specs.Prelude.{◌≡◌, ◌∷◌, [], IfErr, IfOk, IfSome, OnOk, true};
ghost use Rattle.larch_words.specs.Call.{is_certificate};
ghost use Rattle.larch_main_files.specs.Answer.{answer_of};
ghost use Rattle.larch_main_files.specs.Look.{GatherFaults};
ghost use Rattle.larch_main_files.specs.Migrate.{Migrated, migration_answer};
ghost use Rattle.larch_main_files.specs.Turns.{LookInTurn};

use crate::answer::Answer;
use crate::gather::{GatherRefusal, gather_evidence};
use crate::verify::malformed_answer;
use larch_base::Memory;
use larch_certificate_migrate::migrate as migrate_certificate;
use larch_certificate_reader::FormRefusal;
use larch_io::Folder;
use larch_main_status::Status;
use larch_words::EvidenceName;
use std::alloc::Global;

/// What is answered where the certificate of this name is wanted in the second version.
pub fn migrate<F: Folder>(
    alloc: Global,
    certificate: &EvidenceName,
    folder: &mut F,
) -> Result<Answer, GatherRefusal>
    requires { is_certificate certificate.now ≡ true }
    ensures answer { IfSome (answer_of result) (λ answer. Migrated certificate.now (F.files folder.old) answer) }
    ensures same { F.files folder.new ≡ F.files folder.old }
    ensures fine { OnOk result (F.faults folder.new ≡ F.faults folder.old) }
    ensures faults { IfErr result (λ refusal. GatherFaults refusal (F.faults folder.old) (F.faults folder.new)) }
    ensures looks { LookInTurn (F.files folder.old) (certificate.now ∷ []) (F.looks folder.old) (F.looks folder.new) }
{
    let evidence = gather_evidence(alloc, certificate, &[], folder)?;
    let answer = migration_answer(alloc, evidence.text.bytes())?;
    Ok(answer)
}

// The certificate of this text in the second version, or from which line on it is none.
fn migration_answer(alloc: Global, text: &[u8]) -> Result<Answer, Memory>
    ensures { IfOk result (λ answer. answer ≡ migration_answer text.now) }
{
    match migrate_certificate(alloc, text) {
        Ok(text) => Ok(Answer {
            text,
            status: Status::Good,
        }),
        Err(FormRefusal::Form(number)) => malformed_answer(alloc, number),
        Err(FormRefusal::Memory) => Err(Memory),
    }
}
