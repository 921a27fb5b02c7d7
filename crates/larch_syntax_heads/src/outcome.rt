ghost use Rattle.std.specs.Prelude.{◌≡◌, None, Some};
ghost use Rattle.larch_grammar.specs.Machine.{at_head, outside, plainly};
ghost use Rattle.larch_syntax_heads.specs.Outcome.{outcome};
ghost use Rattle.larch_syntax_heads.specs.declared.outcome.Outcome.TheVariants.{Stops};

use larch_grammar::from_grammar_law::Mark;
use larch_grammar::{Draft, Stack, State, Terminal, Whole};
use larch_raw::RawTerm;

/// What a token does in a state, or at a frame that a term comes to.
#[derive(Drop)]
pub enum Outcome {
    /// It is taken: what is counted at it, and the state behind it.
    Taken(Mark, State),
    /// Not yet taken: a term goes on to these frames, and the token with it.
    Handed(RawTerm, Stack, Terminal),
    /// No text of the grammar goes on so: the whole that ends before it, if there is one.
    Stops(Option<Whole>),
}

/// A token outside all equations.
pub fn outside(after: State) -> Outcome
    ensures { result ≡ outcome (outside after) None }
{
    Outcome::Taken(Mark::Outside, after)
}

/// A token of an equation at which nothing is counted.
pub fn plainly(after: State) -> Outcome
    ensures { result ≡ outcome (plainly after) None }
{
    Outcome::Taken(Mark::Plain, after)
}

/// A head token.
pub fn at_head(after: State) -> Outcome
    ensures { result ≡ outcome (at_head after) None }
{
    Outcome::Taken(Mark::Head, after)
}

/// No whole ends before the token.
pub fn stops() -> Outcome
    ensures { result ≡ Stops None }
{
    Outcome::Stops(None)
}

/// This trait ends before the token.
pub fn ends(raw: Draft) -> Outcome
    ensures { result ≡ Stops (Some (Whole.Trait raw)) }
{
    Outcome::Stops(Some(Whole::Trait(raw)))
}
