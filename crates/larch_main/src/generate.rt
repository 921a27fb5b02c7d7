ghost use Rattle.std.specs.Prelude.{◌≡◌, ◌≤◌, ◌+◌, IfOk, OnOk, length};
ghost use Rattle.larch_base.specs.declared.limits.TheConstants.{MAX_FILE_BYTES};
ghost use Rattle.larch_main.specs.Generate.{IsGenerationJustified, generated_table, generation_answer};
ghost use Rattle.larch_main.specs.Generate.{generation_steps, generation_told, with_generated};

use larch_base::limits::DEFAULT_REWRITING_LIMIT;
use larch_base::{Memory, Steps};
use larch_generate::{GeneratedFile, generated_files, generated_text};
use larch_main_files::{Answer, good_or_remains};
use larch_main_session::from_session::Session;
use larch_main_status::from_traits::Files;
use larch_report::{ReportLine, counts_of, is_good};
use larch_words::Generation;
use std::alloc::Global;
use std::sync::ledger::Ledger;

/// What is answered where a report on generated traits is wanted. Each duty begins with the rewriting limit that is
/// taken where none is given.
pub fn generate<L: Ledger>(
    alloc: Global,
    traits: Generation,
    steps: &mut Steps<L>,
) -> Result<Answer, Memory>
    ensures answer { IfOk result (λ answer. answer ≡ generation_answer traits) }
    ensures proved { OnOk result (IsGenerationJustified traits) }
    ensures least { steps.old ≤ steps.new }
    ensures most { steps.new ≤ steps.old + generation_steps traits }
{
    let files = generated_table(alloc, traits)?;
    let mut session = Session::with_files(alloc, DEFAULT_REWRITING_LIMIT, files);
    match session.report(steps) {
        Ok(lines) => generation_told(alloc, traits.size, lines.as_slice()),
        Err(memory) => Err(memory),
    }
}

// The files that are generated.
fn generated_table(alloc: Global, traits: Generation) -> Result<Files, Memory>
    ensures { IfOk result (λ files. files ≡ generated_table traits) }
{
    let generated = generated_files(alloc, traits.seed, traits.size)?;
    let mut files = Files::new(alloc);
    for file in generated.into_vec() {
        put(&mut files, file)?;
    }
    Ok(files)
}

// Puts a generated file in.
fn put(files: &mut Files, file: GeneratedFile) -> Result<(), Memory>
    requires { length file.text ≤ MAX_FILE_BYTES }
    ensures { OnOk result (files.new ≡ with_generated files.old file) }
{
    let GeneratedFile { name, text } = file;
    files.insert(name, text)
}

// What is told of so many traits, by the lines of the report on them.
fn generation_told(alloc: Global, size: u32, lines: &[ReportLine]) -> Result<Answer, Memory>
    ensures { IfOk result (λ answer. answer ≡ generation_told size lines.now) }
{
    let text = generated_text(alloc, size, lines)?;
    let status = good_or_remains(is_good(counts_of(lines)));
    Ok(Answer { text, status })
}
