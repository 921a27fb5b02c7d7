use larch_base::{Bytes, FileName};

/// A file that is generated: its name and its text.
#[derive(Drop)]
pub struct GeneratedFile {
    pub name: FileName,
    pub text: Bytes,
}
