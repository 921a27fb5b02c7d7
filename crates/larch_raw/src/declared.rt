use larch_base::{Name, Pos, Sequence};

/// A word, and where it stands.
#[derive(Debug, Drop)]
pub struct RawWord {
    pub name: Name,
    pub pos: Pos,
}

/// The words of a list, in order.
pub type RawWords = Sequence<RawWord>;

/// The name of an operator in canonical spelling, whether it is a bare word, how many markers it has, and where
/// its first token stands.
#[derive(Debug, Drop)]
pub struct RawForm {
    pub name: Name,
    pub word: bool,
    pub markers: u32,
    pub pos: Pos,
}

/// The forms of a list, in order.
pub type RawForms = Sequence<RawForm>;

/// The sorts of an operator's arguments, and the sort of its result.
#[derive(Debug, Drop)]
pub struct RawSig {
    pub domain: RawWords,
    pub range: RawWord,
}

/// Operators that are declared with one signature.
#[derive(Debug, Drop)]
pub struct RawDecl {
    pub forms: RawForms,
    pub sig: RawSig,
}

/// The declarations of a trait, in order.
pub type RawDecls = Sequence<RawDecl>;

/// A reference to operators: by their form, or to one by its form and signature.
#[derive(Debug, Drop)]
pub struct RawOpRef {
    pub form: RawForm,
    pub sig: Option<RawSig>,
}

/// The references of a clause, in order.
pub type RawOpRefs = Sequence<RawOpRef>;
