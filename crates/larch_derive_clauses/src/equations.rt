ghost use Rattle.std.specs.Prelude.{◌≡◌, IfOk, OnOk, OnErr, List};
ghost use Rattle.larch_term.specs.Operator.{PlainOperator};
ghost use Rattle.larch_term.specs.Sorts.{sort_of};
ghost use Rattle.larch_term.specs.declared.statement.Statement.TheVariants.{Generated, Partitioned};
ghost use Rattle.larch_derive_boxes.specs.CalculusObservation.{observations_of};
ghost use Rattle.larch_derive_boxes.specs.CertificateTextLineText.{IsWord};
ghost use Rattle.larch_derive_boxes.specs.DeriveBuilder.{IsCodeIn};
ghost use Rattle.larch_derive_boxes.specs.DerivePredicates.{Known, HasStatement, HasEquation, Extends};
ghost use Rattle.larch_derive_clauses.specs.Showing.{ShowCases, ShowSame};

use larch_base::Memory;
use larch_certificate::{CodedEquation, CodedVar, Line, Numbers};
use larch_derive_boxes::from_derive::Builder;
use larch_term::Term;

/// A line that says an equation by induction on a variable, whose name is a word: by the clause of a line, and a closed
/// box for each generator, in order. A refused line changes nothing.
#[tactic(auto, using(crate::proofs::Inductions::induct_says, crate::proofs::Inductions::induct_extends))]
pub fn push_induct(
    builder: &mut Builder,
    line: u64,
    variable: CodedVar,
    left: &Term,
    right: &Term,
    boxes: Numbers,
) -> Result<u64, Memory>
    ensures says { IfOk result (λ n. (fs : List PlainOperator)
        → HasStatement builder.old line (Generated variable.sort fs)
        → ShowCases builder.old variable left.now right.now fs boxes
        → Known builder.old left.now → Known builder.old right.now → sort_of left.now ≡ sort_of right.now
        → IsWord variable.name → HasEquation builder.new n left.now right.now) }
    ensures extends { OnOk result ((fs : List PlainOperator)
        → HasStatement builder.old line (Generated variable.sort fs)
        → ShowCases builder.old variable left.now right.now fs boxes
        → Known builder.old left.now → Known builder.old right.now → sort_of left.now ≡ sort_of right.now
        → IsWord variable.name → Extends builder.old builder.new) }
    ensures err { OnErr result (builder.new ≡ builder.old) }
{
    let equation = write_equation(builder, left, right)?;
    let number = builder.push(Line::Induct(line, variable, equation, boxes))?;
    Ok(number)
}

/// A line that says that two terms of a partitioned sort are equal: by the clause of a line, and a line for each
/// observation, in order. A refused line changes nothing.
#[tactic(auto, using(crate::proofs::Observers::observe_says, crate::proofs::Observers::observe_extends))]
pub fn push_observe(
    builder: &mut Builder,
    line: u64,
    left: &Term,
    right: &Term,
    lines: Numbers,
) -> Result<u64, Memory>
    ensures says { IfOk result (λ n. (os : List PlainOperator)
        → HasStatement builder.old line (Partitioned (sort_of left.now) os)
        → ShowSame builder.old left.now right.now (observations_of (sort_of left.now) os) lines
        → Known builder.old left.now → Known builder.old right.now → sort_of left.now ≡ sort_of right.now
        → HasEquation builder.new n left.now right.now) }
    ensures extends { OnOk result ((os : List PlainOperator)
        → HasStatement builder.old line (Partitioned (sort_of left.now) os)
        → ShowSame builder.old left.now right.now (observations_of (sort_of left.now) os) lines
        → Known builder.old left.now → Known builder.old right.now → sort_of left.now ≡ sort_of right.now
        → Extends builder.old builder.new) }
    ensures err { OnErr result (builder.new ≡ builder.old) }
{
    let equation = write_equation(builder, left, right)?;
    let number = builder.push(Line::Observe(line, equation, lines))?;
    Ok(number)
}

// The equation as the builder's next lines write it.
fn write_equation(builder: &Builder, left: &Term, right: &Term) -> Result<CodedEquation, Memory>
    ensures left { IfOk result (λ equation. IsCodeIn builder.now left.now equation.left) }
    ensures right { IfOk result (λ equation. IsCodeIn builder.now right.now equation.right) }
{
    let left = builder.code(left)?;
    let right = builder.code(right)?;
    Ok(CodedEquation { left, right })
}
