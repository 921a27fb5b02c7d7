use crate::past::KeptHistory;
use larch_term::Theory;

/// What a line is judged by: a theory, and what the lines before leave.
#[derive(Drop)]
pub struct Context<'a> {
    pub theory: &'a Theory,
    pub past: &'a KeptHistory,
}
