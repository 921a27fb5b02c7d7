/// What the checker says of a certificate.
#[derive(Clone, Copy, Debug, PartialEq, Eq)]
pub enum Verdict {
    /// It shows the statement.
    Accepted,
    /// It doesn't: the number of the first bad line, or the number behind the last line where none is bad.
    Refused(u64),
}
