ghost use Rattle.std.specs.Prelude.{◌≡◌, IfOk};
ghost use Rattle.larch_derive.specs.Predicates.{Extends, HasEquation};
ghost use Rattle.larch_prove_adding.specs.Equation.{IsSaid, sides_in};
ghost use Rattle.larch_rewrite_meaning.specs.Sides.{flip};
ghost use Rattle.larch_term.specs.Tree.{Tree};

use larch_base::Memory;
use larch_derive::Builder;
use larch_rewrite::from_derive_lines::{push_sym, push_trans};
use larch_term::Term;
use std::alloc::Global;

/// An equation, and the line that says it.
#[derive(Drop)]
pub struct SaidEquation {
    pub left: Term,
    pub right: Term,
    pub line: u64,
}

// The equation with its sides exchanged.
pub(crate) fn exchange_sides(
    builder: &mut Builder,
    equation: SaidEquation,
) -> Result<SaidEquation, Memory>
    requires { IsSaid builder.old equation }
    ensures sides { IfOk result (λ e. sides_in e ≡ flip (sides_in equation)) }
    ensures says { IfOk result (IsSaid builder.new) }
    ensures extends { Extends builder.old builder.new }
{
    let line = push_sym(builder, equation.line)?;
    let SaidEquation { left, right, .. } = equation;
    Ok(SaidEquation {
        left: right,
        right: left,
        line,
    })
}

// A line that says an equation with other sides, to which its own are equal.
#[tactic(auto, using(larch_derive::proofs::Growth::extends_same))]
pub(crate) fn push_between(
    alloc: Global,
    builder: &mut Builder,
    left: u64,
    line: u64,
    right: u64,
) -> Result<u64, Memory>
    ensures says { IfOk result (λ n. (l k r q : Tree) → HasEquation builder.old left l k
        → HasEquation builder.old line l r → HasEquation builder.old right r q → HasEquation builder.new n k q) }
    ensures extends { (l k r q : Tree) → HasEquation builder.old left l k → HasEquation builder.old line l r
        → HasEquation builder.old right r q → Extends builder.old builder.new }
{
    let back = push_sym(builder, left)?;
    let half = push_trans(alloc, builder, back, line)?;
    let number = push_trans(alloc, builder, half, right)?;
    Ok(number)
}
