use larch_session_law::from_flat::FlatTraits;
use larch_session_law::from_flat_sources::Sources;
use larch_session_law::from_traits::Files;

/// What a report goes by: the files, what is read of them, their flat traits, and the rewriting limit.
#[derive(Drop)]
pub struct Looked<'a> {
    pub files: &'a Files,
    pub sources: &'a Sources,
    pub flat_traits: &'a FlatTraits,
    pub limit: u32,
}
