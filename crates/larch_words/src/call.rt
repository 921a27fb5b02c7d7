ghost use Rattle.std.specs.Prelude.{◌≡◌, Bool, IfOk, [], map, string_bytes};
ghost use Rattle.clap.specs.Words.{found_of, rows_of};
ghost use Rattle.larch_words.specs.Call.{asked, call_from, call_in, call_of, plain_call};
ghost use Rattle.larch_words.specs.CommandLine.{request_in};

use crate::command_line::command_line;
use crate::evidence::{Aim, certificate_call, migrate_call, model_call};
use crate::evidence_name::EvidenceName;
use crate::files::on_files;
use crate::limited::limited_call;
use crate::options::{
    generate_call, has_seed_or_size, is_given, limit_in, takes_limit, takes_seed,
};
use clap::ArgMatches;
use clap::error::ErrorKind;
use larch_base::{FileName, Label, Memory, Name, Sequence};
use std::alloc::Global;

/// Several names of files, in order.
pub type FileNames = Sequence<FileName>;

/// Which duty is meant.
#[derive(Drop)]
pub struct DutyName {
    /// The name of the trait.
    pub stem: Name,
    /// The label of its duty.
    pub label: Label,
}

/// What a certificate is to show, and where it stands.
#[derive(Drop)]
pub struct Verification {
    /// The name of the trait.
    pub stem: Name,
    /// The label of its duty.
    pub label: Label,
    /// The file of the certificate.
    pub certificate: EvidenceName,
}

/// What is to be tried as a model, and of what.
#[derive(Drop)]
pub struct Trial {
    /// The name of the trait.
    pub stem: Name,
    /// The file of the model.
    pub model: EvidenceName,
}

/// Which traits are to be generated.
#[derive(Clone, Copy)]
pub struct Generation {
    /// What they are made of.
    pub seed: u32,
    /// How many there are to be.
    pub size: u32,
}

/// What is asked about files.
#[derive(Drop)]
pub enum Question {
    /// What is wrong with them.
    Check,
    /// What their traits claim.
    Obligations,
    /// What their scripts prove of it, with this rewriting limit.
    Replay(u32),
    /// A certificate of a duty that their scripts prove, with this rewriting limit.
    Derive(DutyName, u32),
    /// Whether a certificate shows what a trait among them claims.
    Verify(Verification),
    /// Whether a text is a model of a trait among them, and which of its claims hold in it.
    Model(Trial),
    /// A certificate that shows what a trait among them claims, without the lines that it doesn't need.
    Trim(Verification),
    /// Rules that decide the equations of a trait among them, with this rewriting limit.
    Complete(Name, u32),
}

/// What the words of the command line ask for.
#[derive(Drop)]
pub enum Call {
    /// A session over the source and the sink, with this rewriting limit.
    Session(u32),
    /// Something about these files of the folder.
    OnFiles(Question, FileNames),
    /// The certificate of this name in the folder, in the second version.
    Migrate(EvidenceName),
    /// A report on generated traits.
    Generate(Generation),
    /// Nothing: the words mean no command.
    Nothing,
}

/// What these words ask for. They are read as one command of `clap` reads them, which asks for a command and takes any
/// number of words and three options; `--help` and its like have no matches, and so mean nothing.
pub fn read_words(alloc: Global, words: &[String]) -> Result<Call, Memory>
    ensures { IfOk result (λ call. call ≡ call_of (map string_bytes words.now)) }
{
    let command = command_line(alloc)?;
    match command.try_get_matches_from(words) {
        Ok(matches) => {
            let call = asked(alloc, &matches)?;
            Ok(call)
        }
        Err(error) => {
            if error.kind() == ErrorKind::OutOfMemory {
                return Err(Memory);
            }
            Ok(Call::Nothing)
        }
    }
}

// What the matches ask for.
fn asked(alloc: Global, matches: &ArgMatches<'_>) -> Result<Call, Memory>
    ensures { IfOk result (λ call. call ≡ asked (request_in (rows_of (found_of matches.now)))) }
{
    if takes_seed(command_in(matches)) {
        return Ok(generate_call(matches));
    }
    if has_seed_or_size(matches) {
        return Ok(Call::Nothing);
    }
    call_in(alloc, matches)
}

// What the matches ask for, where neither a seed nor a size has a say.
fn call_in(alloc: Global, matches: &ArgMatches<'_>) -> Result<Call, Memory>
    ensures { IfOk result (λ call. call ≡ call_in (request_in (rows_of (found_of matches.now)))) }
{
    let command = command_in(matches);
    let given = is_given(matches, "limit");
    let limit = limit_in(matches);
    match matches.get_strs("WORD") {
        Some(words) => {
            let call = call_from(alloc, command, given, limit, words)?;
            Ok(call)
        }
        None => Ok(call_without_words(command, limit)),
    }
}

// The command.
fn command_in<'a>(matches: &ArgMatches<'a>) -> &'a str
    ensures { result.now ≡ (request_in (rows_of (found_of matches.now))).command }
{
    matches.get_str("COMMAND").unwrap_or("")
}

// What a command without words asks for, with this limit: files are nearly always wanted.
fn call_without_words(command: &str, limit: Option<u32>) -> Call
    ensures { (given : Bool) → result ≡ call_from command.now given limit [] }
{
    match limit {
        Some(limit) if command == "session" => Call::Session(limit),
        _ => Call::Nothing,
    }
}

// What a command with these words asks for: whether a limit was given, and which one it is.
fn call_from(
    alloc: Global,
    command: &str,
    given: bool,
    limit: Option<u32>,
    words: &[&str],
) -> Result<Call, Memory>
    ensures { IfOk result (λ call. call ≡ call_from command.now given limit (map (λ word. word.now) words.now)) }
{
    if takes_limit(command) {
        match limit {
            Some(limit) => limited_call(alloc, command, limit, words),
            None => Ok(Call::Nothing),
        }
    } else if given {
        Ok(Call::Nothing)
    } else {
        plain_call(alloc, command, words)
    }
}

// What a command without options asks for.
fn plain_call(alloc: Global, command: &str, words: &[&str]) -> Result<Call, Memory>
    ensures { IfOk result (λ call. call ≡ plain_call command.now (map (λ word. word.now) words.now)) }
{
    match command {
        "check" => on_files(alloc, Question::Check, words),
        "obligations" => on_files(alloc, Question::Obligations, words),
        "verify" => certificate_call(alloc, Aim::Verify, words),
        "model" => model_call(alloc, words),
        "trim" => certificate_call(alloc, Aim::Trim, words),
        "migrate" => migrate_call(alloc, words),
        _ => Ok(Call::Nothing),
    }
}
