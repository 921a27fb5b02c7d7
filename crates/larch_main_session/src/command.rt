ghost use Rattle.std.specs.Prelude.{◌≡◌, ◌≤◌, ◌<◌, ◌^◌, length, IfOk, Some, None, IsTrue};
ghost use Rattle.std.specs.List.{before_first, after_first, position_or_len};
ghost use Rattle.larch_base.specs.FileName.{is_file_name};
ghost use Rattle.larch_main_session.specs.Command.{is_blank, are_digits, is_length, number_of_digits, put_of, drop_of, derive_of, command_of};

use larch_base::{FileName, Label, Memory, Name, NameRefusal, is_stem, read_label};
use std::alloc::Global;

/// What a line of a session asks for.
#[derive(Debug, Drop)]
pub enum Command {
    /// Nothing: the line is empty.
    Skip,
    /// To take so many bytes as the file of this name.
    Put(FileName, u32),
    /// To take the file of this name out.
    Drop(FileName),
    /// To write the report.
    Report,
    /// To write what is derived of the duty of a trait with a label.
    Derive(Name, Label),
    /// To end the session.
    Quit,
}

/// The command that a line spells, or none where it isn't in the grammar.
pub fn command_of(alloc: Global, line: &[u8]) -> Result<Option<Command>, Memory>
    ensures { IfOk result (λ command. command ≡ command_of line.now) }
{
    match line {
        b"" => Ok(Some(Command::Skip)),
        b"report" => Ok(Some(Command::Report)),
        b"quit" => Ok(Some(Command::Quit)),
        _ => {
            let (first, words) = split_at_blank(line);
            if first == b"put".as_slice() {
                put_of(alloc, words)
            } else if first == b"drop".as_slice() {
                drop_of(alloc, words)
            } else if first == b"derive".as_slice() {
                derive_of(alloc, words)
            } else {
                Ok(None)
            }
        }
    }
}

// What `put` with these words behind it asks for.
fn put_of(alloc: Global, words: &[u8]) -> Result<Option<Command>, Memory>
    ensures { IfOk result (λ command. command ≡ put_of words.now) }
{
    let (name, digits) = split_at_blank(words);
    let name = match FileName::new(alloc, name) {
        Ok(name) => name,
        Err(NameRefusal::NotAName) => return Ok(None),
        Err(NameRefusal::Memory) => return Err(Memory),
    };
    if is_length(digits) {
        Ok(Some(Command::Put(name, number_of_digits(digits))))
    } else {
        Ok(None)
    }
}

// What `drop` with these words behind it asks for.
fn drop_of(alloc: Global, words: &[u8]) -> Result<Option<Command>, Memory>
    ensures { IfOk result (λ command. command ≡ drop_of words.now) }
{
    match FileName::new(alloc, words) {
        Ok(name) => Ok(Some(Command::Drop(name))),
        Err(NameRefusal::NotAName) => Ok(None),
        Err(NameRefusal::Memory) => Err(Memory),
    }
}

// What `derive` with these words behind it asks for.
fn derive_of(alloc: Global, words: &[u8]) -> Result<Option<Command>, Memory>
    ensures { IfOk result (λ command. command ≡ derive_of words.now) }
{
    let (stem, label) = split_at_blank(words);
    if !is_stem(stem) {
        return Ok(None);
    }
    match read_label(label) {
        Some(label) => {
            let stem = Name::new(alloc, stem)?;
            Ok(Some(Command::Derive(stem, label)))
        }
        None => Ok(None),
    }
}

fn is_blank(byte: u8) -> bool
    ensures { result ≡ is_blank byte }
{
    byte == b' ' || byte == b'\t'
}

// Where the first blank stands, or the end where there is none.
fn first_blank(bytes: &[u8]) -> usize
    ensures { result ≡ position_or_len is_blank bytes.now }
{
    for (place, byte) in bytes.iter().enumerate() {
        if is_blank(*byte) {
            return place;
        }
    }
    bytes.len()
}

// The bytes before the first blank, and those behind it.
fn split_at_blank(bytes: &[u8]) -> (&[u8], &[u8])
    ensures before { result.0.now ≡ before_first is_blank bytes.now }
    ensures behind { result.1.now ≡ after_first is_blank bytes.now }
{
    let blank = first_blank(bytes);
    if blank < bytes.len() {
        (&bytes[..blank], &bytes[blank + 1..])
    } else {
        (bytes, &[])
    }
}

// Whether the bytes are 1 to 8 digits, the first being 0 only where it stands alone.
fn is_length(bytes: &[u8]) -> bool
    ensures { result ≡ is_length bytes.now }
{
    match bytes {
        [] => false,
        [digit, digits @ ..] => {
            are_digits(bytes) && digits.len() <= 7 && (*digit != b'0' || digits.is_empty())
        }
    }
}

fn are_digits(bytes: &[u8]) -> bool
    ensures { result ≡ are_digits bytes.now }
{
    bytes.iter().all(|byte| byte.is_ascii_digit())
}

// The number that the digits spell.
fn number_of_digits(digits: &[u8]) -> u32
    requires few { length digits.now ≤ 8 }
    requires digits { IsTrue (are_digits digits.now) }
    ensures { result ≡ number_of_digits digits.now }
{
    let mut number = 0;
    for digit in digits {
        number = 10 * number + u32::from(*digit - b'0');
    }
    number
}
