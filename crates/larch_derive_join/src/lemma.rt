/// What later parts need of one.
#[derive(Clone, Copy, Drop)]
pub struct Lemma {
    /// The number of its last line in the result.
    pub line: u64,
    /// Whether that line says a clause.
    pub clause: bool,
}
