ghost use Rattle.std.specs.Prelude.{◌≡◌, [], List, map, All, IfOk, OnErr};
ghost use Rattle.larch_derive.specs.CertificateTextLineText.{IsWord};
ghost use Rattle.larch_derive.specs.Builder.{boxes_in};
ghost use Rattle.larch_derive_clauses.specs.DeriveBoxesBoxes.{AreOwnConstants, Opens};
ghost use Rattle.larch_methods.specs.Inside.{IsInside};
ghost use Rattle.larch_methods.specs.Opening.{MayOpen};
ghost use Rattle.larch_term.specs.declared.variable.Variable.{Variable};

use larch_base::{Memory, Sequence};
use larch_derive::{Builder, OpenBox};
use larch_prove_plans::Subgoal;
use larch_term::{Operators, Statements, copy_operators};
use std::alloc::Global;

/// Opens the box in which a subgoal is proved, with the subgoal's own constants and its hypotheses, and answers it. So
/// are the boxes of clauses opened. A refused call changes nothing.
pub fn open_subgoal(
    alloc: Global,
    builder: &mut Builder,
    subgoal: &Subgoal,
) -> Result<OpenBox, Memory>
    ensures constants { IfOk result (λ x. x.constants ≡ subgoal.now.constants) }
    ensures opens { IfOk result (λ x. MayOpen builder.old subgoal.now.constants subgoal.now.hypotheses
        → Opens builder.old builder.new x subgoal.now.hypotheses) }
    ensures err { OnErr result (builder.new ≡ builder.old) }
{
    let opened = open_with(alloc, builder, &subgoal.constants, &subgoal.hypotheses)?;
    Ok(opened)
}

/// Opens a box that has these constants and supposes nothing, and answers it: the one that all subgoals of a plan
/// share, or one for constants whose own box isn't open. A refused call changes nothing.
pub fn open_constants(
    alloc: Global,
    builder: &mut Builder,
    constants: &Operators,
) -> Result<OpenBox, Memory>
    ensures constants { IfOk result (λ x. x.constants ≡ constants.now) }
    ensures opens { IfOk result (λ x. MayOpen builder.old constants.now [] → Opens builder.old builder.new x []) }
    ensures inside { IfOk result (λ x. (vs : List Variable) → MayOpen builder.old constants.now []
        → AreOwnConstants (boxes_in builder.old) x → map (λ c. c.range) constants.now ≡ map (λ v. v.sort) vs
        → All (λ v. IsWord v.name) vs → IsInside builder.old builder.new x vs) }
    ensures err { OnErr result (builder.new ≡ builder.old) }
{
    let opened = open_with(alloc, builder, constants, &Sequence::new(alloc))?;
    Ok(opened)
}

// Opens a box with constants and hypotheses, and answers it.
fn open_with(
    alloc: Global,
    builder: &mut Builder,
    constants: &Operators,
    hypotheses: &Statements,
) -> Result<OpenBox, Memory>
    ensures constants { IfOk result (λ x. x.constants ≡ constants.now) }
    ensures opens { IfOk result (λ x. MayOpen builder.old constants.now hypotheses.now
        → Opens builder.old builder.new x hypotheses.now) }
    ensures err { OnErr result (builder.new ≡ builder.old) }
{
    let copied = copy_operators(alloc, constants.as_slice())?;
    let number = builder.open_box(constants, hypotheses)?;
    Ok(OpenBox {
        number,
        constants: copied,
    })
}
