ghost use Rattle.std.specs.Prelude.{◌≡◌, ◌≤◌, ◌+◌, ◌-◌, ◌^◌, [], false, min, true, IfOk, IsErrOf, OnErr, OnOk};
ghost use Rattle.larch_session_report.specs.ProveMeaningRedo.{redo};
ghost use Rattle.larch_session_report.specs.SessionSourcesJustified.{IsJustifiedReport};
ghost use Rattle.larch_session.specs.Session.{is_too_much};
ghost use Rattle.larch_session_kept.specs.Kept.{limit_in, records_in};
ghost use Rattle.larch_session_derive.specs.SessionDeriveMeaningDerived.{Derives};
ghost use Rattle.larch_session_report.specs.SessionMeaningFiles.{report_of};
ghost use Rattle.larch_session_report.specs.SessionMeaningRedone.{replayed_on};
ghost use Rattle.larch_session_report.specs.TraitsFiles.{drop_file, put_file};

use larch_base::limits::{MAX_FILE_BYTES, MAX_FILES};
use larch_base::{Bytes, FileName, Label, Memory, Name, Sequence, Steps};
use larch_certificate::Certificate;
use larch_report::ReportLine;
use larch_session_derive::derive_on;
use larch_session_kept::Base;
use larch_session_report::from_traits::Files;
use larch_session_report::{Report, report_on};
use std::alloc::Global;
use std::sync::ledger::Ledger;

/// Why a file isn't put.
#[derive(Clone, Copy, Debug, PartialEq, Eq)]
pub enum PutRefusal {
    /// It has too many bytes, or would be one file too many.
    Size,
    /// Out of memory.
    Memory,
}

impl From<Memory> for PutRefusal {
    ghost use Rattle.larch_session.specs.declared.session.PutRefusal.TheVariants.{Memory as out_of_memory};

    ghost from_gives = { λ _ refusal. refusal ≡ out_of_memory };

    fn from(_memory: Memory) -> PutRefusal {
        PutRefusal::Memory
    }
}

/// Files of traits and scripts, and the rewriting limit with which a report on them begins each duty.
#[derive(Drop)]
pub struct Session {
    alloc: Global,
    files: Files,
    // what the last report has kept, and the rewriting limit
    base: Base,
    // how many steps the last report or derivation took
    work: u64,
}

impl Session {
    /// A session without files. It takes no memory.
    pub fn new(alloc: Global, limit: u32) -> Session
        ensures files { result.files ≡ [] }
        ensures base { result.base ≡ (limit, []) }
        ensures work { result.work ≡ 0 }
    {
        Session {
            alloc,
            files: Files::new(alloc),
            base: Base::new(alloc, limit),
            work: 0,
        }
    }

    /// A session with these files. It takes no memory.
    pub fn with_files(alloc: Global, limit: u32, files: Files) -> Session
        ensures files { result.files ≡ files }
        ensures base { result.base ≡ (limit, []) }
        ensures work { result.work ≡ 0 }
    {
        Session {
            alloc,
            files,
            base: Base::new(alloc, limit),
            work: 0,
        }
    }

    /// Puts a file in, new or in place of the one that has the name. `Size` exactly where it has more than 1,048,576
    /// bytes or would be the 257th name. A refusal changes nothing.
    pub fn put(&mut self, name: FileName, text: Bytes) -> Result<(), PutRefusal>
        ensures put { OnOk result (self.new ≡ record self.old { files = put_file self.old.files name text }) }
        ensures room { OnOk result (is_too_much self.old.files name text ≡ false) }
        ensures refused { IsErrOf result PutRefusal.Size → is_too_much self.old.files name text ≡ true }
        ensures same { OnErr result (self.new ≡ self.old) }
    {
        if is_too_much(&self.files, &name, &text) {
            return Err(PutRefusal::Size);
        }
        self.files.insert(name, text)?;
        Ok(())
    }

    /// Takes the file of this name out, where there is one. It takes no memory.
    pub fn drop_file(&mut self, name: &FileName)
        ensures { self.new ≡ record self.old { files = drop_file self.old.files name.now } }
    {
        self.files.remove(name);
    }

    /// The lines of the report on the files as they stand, after any calls before. Each duty that it calls proved is
    /// derivable from its own theory.
    ///
    /// It takes no more steps than are to be taken again behind the last report. Where memory runs out, the next report
    /// goes on from nothing.
    pub fn report<L: Ledger>(
        &mut self,
        steps: &mut Steps<L>,
    ) -> Result<Sequence<ReportLine>, Memory>
        ensures lines { IfOk result (λ lines. lines ≡ report_of (limit_in self.old.base) self.old.files) }
        ensures proved { OnOk result (IsJustifiedReport (limit_in self.old.base) self.old.files) }
        ensures files { self.new.files ≡ self.old.files }
        ensures limit { limit_in self.new.base ≡ limit_in self.old.base }
        ensures base { OnOk result (records_in self.new.base ≡ replayed_on (limit_in self.old.base) self.old.files) }
        ensures none { OnErr result (records_in self.new.base ≡ []) }
        ensures work { OnOk result (self.new.work ≡ min (steps.new - steps.old) (2 ^ 64 - 1)) }
        ensures least { steps.old ≤ steps.new }
        ensures most { steps.new ≤ steps.old
            + redo (records_in self.old.base) (replayed_on (limit_in self.old.base) self.old.files) }
    {
        match report_on(self.alloc, &self.files, &self.base, steps) {
            Ok((report, work)) => {
                let Report { lines, base } = report;
                self.base = base;
                self.work = work;
                Ok(lines)
            }
            Err(Memory) => {
                self.base = Base::new(self.alloc, self.base.limit());
                Err(Memory)
            }
        }
    }

    /// The certificate of the duty of a trait with a label, over its own theory, with the lines of its lemmas in it: by
    /// the files as they stand, after any calls before. `None` exactly where the report on them, asked for or not,
    /// doesn't call that duty proved.
    pub fn derive<L: Ledger>(
        &mut self,
        stem: &Name,
        label: Label,
        steps: &mut Steps<L>,
    ) -> Result<Option<Certificate>, Memory>
        ensures derived { IfOk result (Derives (limit_in self.old.base) self.old.files stem.now label) }
        ensures files { self.new.files ≡ self.old.files }
        ensures base { self.new.base ≡ self.old.base }
        ensures work { OnOk result (self.new.work ≡ min (steps.new - steps.old) (2 ^ 64 - 1)) }
        ensures least { steps.old ≤ steps.new }
        ensures most { steps.new ≤ steps.old + redo [] (replayed_on (limit_in self.old.base) self.old.files) }
    {
        let (derived, work) = derive_on(
            self.alloc,
            &self.files,
            self.base.limit(),
            stem,
            label,
            steps,
        )?;
        self.work = work;
        Ok(derived)
    }

    /// How many steps the last report or derivation took, 0 before the first. Where memory ran out in one, that doesn't
    /// count.
    pub fn work(&self) -> u64
        ensures { result ≡ self.now.work }
    {
        self.work
    }
}

// Whether a file has too many bytes, or would be one too many.
fn is_too_much(files: &Files, name: &FileName, text: &Bytes) -> bool
    ensures { result ≡ is_too_much files.now name.now text.now }
{
    (MAX_FILE_BYTES as usize) < text.bytes().len()
        || (!files.contains(name) && MAX_FILES as usize <= files.len())
}
