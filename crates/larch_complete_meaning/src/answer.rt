use larch_term::Statement;

/// How a completion ends.
#[derive(Drop)]
pub enum CompletionAnswer {
    /// The rules decide the theory's equations: all critical pairs join.
    Complete,
    /// Neither side of this equation, whose sides are normal, is greater than the other.
    Unoriented(Statement),
    /// The sides of an equation took more applications than the budget has.
    Limit,
    /// A term was formed that has more than 5,000 nodes.
    TooLarge,
    /// More equations would be taken than a completion takes.
    Spent,
}
