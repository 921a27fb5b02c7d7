use larch_base::Sequence;
use larch_certificate::Certificate;

/// A certificate to be joined with others.
#[derive(Drop)]
pub struct Part {
    /// How many statements the theory has of its own. Those behind them, by number, are the earlier parts' statements.
    pub statements: u64,
    /// The certificate, over that theory with the earlier parts' statements behind its own.
    pub certificate: Certificate,
}

/// Several parts: lemmas in order, and at last what is proved with them.
pub type Parts = Sequence<Part>;
