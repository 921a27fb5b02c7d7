ghost use Rattle.std.specs.Prelude.{◌≡◌, [], ◌∷◌, map, All, Some, IfOk, OnOk, OnErr};
ghost use Rattle.larch_term.specs.Sorts.{sort_of};
ghost use Rattle.larch_term.specs.Tree.{Tree};
ghost use Rattle.larch_derive.specs.CertificateTextLineText.{IsWord};
ghost use Rattle.larch_verify_law.specs.VerifyMeaningMatching.{variable_of};
ghost use Rattle.larch_derive.specs.Builder.{boxes_in};
ghost use Rattle.larch_term.specs.Truth.{truth};
ghost use Rattle.larch_term.specs.Variable.{occurrences};
ghost use Rattle.std.specs.Prelude.{List};
ghost use Rattle.larch_base.specs.ByNumber.{numbered};
ghost use Rattle.larch_term.specs.declared.statement.Statement.{Statement};
ghost use Rattle.larch_term.specs.declared.statement.Statement.TheVariants.{Equation as equation};
ghost use Rattle.larch_verify_law.specs.CalculusFormula.{falsity};
ghost use Rattle.larch_derive.specs.Predicates.{Known, HasStatement, HasEquation, Extends, Grows};
ghost use Rattle.larch_derive.specs.declared.builder.Builder.{Builder as Built};
ghost use Rattle.larch_derive.specs.declared.open_box.OpenBox.{OpenBox};
ghost use Rattle.larch_derive_boxes.specs.Boxes.{Opens, IsOpen, HasResult, AreOwnConstants, with_constants};

use larch_base::{Memory, Sequence};
use larch_certificate::{CodedVars, Line};
use larch_derive::Builder;
use std::alloc::Global;

/// A line that says a hypothesis of an open box, by the box's number and the hypothesis's, counted from 1. A refused
/// line changes nothing.
#[tactic(auto, using(crate::proofs::Supposing::hyp_line_says, crate::proofs::Supposing::hyp_line_extends))]
pub fn push_hyp(builder: &mut Builder, number: u64, hypothesis: u64) -> Result<u64, Memory>
    ensures says { IfOk result (λ n. (x : OpenBox) (hs : List Statement) (s : Statement) → x.number ≡ number
        → IsOpen builder.old x hs → numbered hs hypothesis ≡ Some s → HasStatement builder.new n s) }
    ensures extends { OnOk result ((x : OpenBox) (hs : List Statement) (s : Statement) → x.number ≡ number
        → IsOpen builder.old x hs → numbered hs hypothesis ≡ Some s → Extends builder.old builder.new) }
    ensures err { OnErr result (builder.new ≡ builder.old) }
{
    let number = builder.push(Line::Hyp(number, hypothesis))?;
    Ok(number)
}

/// Closes the innermost box with the equation that a line says: says it once more, and ends the box. It answers the
/// number of the last line. Out of memory, the box is open still, and the equation may be said once more.
#[tactic(auto, using(crate::proofs::Closing::close_result, crate::proofs::Closing::close_grows, crate::proofs::Closing::unclosed, larch_derive::proofs::Growth::extends_same))]
pub fn close_box(alloc: Global, builder: &mut Builder, line: u64) -> Result<u64, Memory>
    ensures result { OnOk result ((a b : Built) (x : OpenBox) (hs : List Statement) (l r : Tree) → Opens a b x hs
        → Grows b builder.old → HasEquation builder.old line l r → HasResult builder.new x hs (equation l r)) }
    ensures grows { OnOk result ((a b : Built) (x : OpenBox) (hs : List Statement) (l r : Tree) → Opens a b x hs
        → Grows b builder.old → HasEquation builder.old line l r → Grows a builder.new) }
    ensures err { OnErr result ((l r : Tree) → HasEquation builder.old line l r → Extends builder.old builder.new) }
{
    builder.push(Line::Inst(line, Sequence::new(alloc)))?;
    let number = builder.push(Line::Done)?;
    Ok(number)
}

/// A line that says the common result of two boxes without constants, one of which supposes that a formula without
/// variables is true, and the other that it is false. A refused line changes nothing.
#[tactic(auto, using(crate::proofs::Cases::cases_line_says, crate::proofs::Cases::cases_line_extends))]
pub fn push_cases(builder: &mut Builder, first: u64, second: u64) -> Result<u64, Memory>
    ensures says { IfOk result (λ n. (x y : OpenBox) (f l r : Tree) → x.number ≡ first → y.number ≡ second
        → HasResult builder.old x (equation f truth ∷ []) (equation l r)
        → HasResult builder.old y (equation f falsity ∷ []) (equation l r)
        → x.constants ≡ [] → y.constants ≡ [] → occurrences f ≡ [] → HasEquation builder.new n l r) }
    ensures extends { OnOk result ((x y : OpenBox) (f l r : Tree) → x.number ≡ first → y.number ≡ second
        → HasResult builder.old x (equation f truth ∷ []) (equation l r)
        → HasResult builder.old y (equation f falsity ∷ []) (equation l r)
        → x.constants ≡ [] → y.constants ≡ [] → occurrences f ≡ [] → Extends builder.old builder.new) }
    ensures err { OnErr result (builder.new ≡ builder.old) }
{
    let number = builder.push(Line::Cases(first, second))?;
    Ok(number)
}

/// A line that says the result of a box without hypotheses, with variables in the places of its constants, whose names
/// are words. A refused line changes nothing.
#[tactic(auto, using(crate::proofs::Freshness::fresh_says, crate::proofs::Freshness::fresh_extends))]
pub fn push_fresh(builder: &mut Builder, number: u64, variables: CodedVars) -> Result<u64, Memory>
    ensures says { IfOk result (λ n. (x : OpenBox) (l r : Tree) → x.number ≡ number
        → HasResult builder.old x [] (equation (with_constants variables x l) (with_constants variables x r))
        → AreOwnConstants (boxes_in builder.old) x
        → map (λ c. c.range) x.constants ≡ map (λ v. v.sort) (map variable_of variables)
        → Known builder.old l → Known builder.old r → sort_of l ≡ sort_of r → All (λ v. IsWord v.name) variables
        → HasEquation builder.new n l r) }
    ensures extends { OnOk result ((x : OpenBox) (l r : Tree) → x.number ≡ number
        → HasResult builder.old x [] (equation (with_constants variables x l) (with_constants variables x r))
        → AreOwnConstants (boxes_in builder.old) x
        → map (λ c. c.range) x.constants ≡ map (λ v. v.sort) (map variable_of variables)
        → Known builder.old l → Known builder.old r → All (λ v. IsWord v.name) variables
        → Extends builder.old builder.new) }
    ensures err { OnErr result (builder.new ≡ builder.old) }
{
    let number = builder.push(Line::Fresh(number, variables))?;
    Ok(number)
}
