ghost use Rattle.std.specs.Prelude.{◌≡◌, [], IfOk};
ghost use Rattle.larch_complete_pairs.specs.Said.{IsSaid, IsSaidRule, rule_in, sides_in};
ghost use Rattle.larch_complete_rounds.specs.Certified.{IsCertified, lines_behind};
ghost use Rattle.larch_derive.specs.Builder.{boxes_in, theory_in};
ghost use Rattle.larch_derive.specs.Predicates.{Extends};

use larch_base::Memory;
use larch_certificate::Certificate;
use larch_complete_pairs::{SaidEquation, SaidRule};
use larch_derive::Builder;
use larch_derive_lines::push_again;
use larch_pairs_critical::Rule;
use std::alloc::Global;

/// A rule with the lines up to the one that says it. Rules share the lines that they have in common.
pub struct CertifiedRule {
    pub said: SaidRule,
    proof: Builder,
}

// By a call, so that a proof takes it apart in one place alone.
impl Drop for CertifiedRule {
    fn drop(self) {
        let CertifiedRule {
            said: _said,
            proof: _proof,
        } = self;
    }
}

impl CertifiedRule {
    /// The certificate of the rule's equation.
    pub fn certificate(&self) -> Result<Certificate, Memory>
        ensures { IfOk result (λ certificate. certificate ≡ lines_behind self.now) }
    {
        self.proof.certificate()
    }
}

/// A rule with its certificate, where no box is open: the lines so far, with one that says the rule once more.
#[tactic(auto, using(larch_derive::proofs::Growth::extends_same))]
pub fn certify(
    alloc: Global,
    builder: &mut Builder,
    rule: SaidEquation,
) -> Result<CertifiedRule, Memory>
    requires said { IsSaid builder.old rule }
    requires boxes { boxes_in builder.old ≡ [] }
    ensures rule { IfOk result (λ r. rule_in r.said ≡ sides_in rule) }
    ensures says { IfOk result (λ r. IsSaidRule builder.new r.said) }
    ensures certified { IfOk result (IsCertified (theory_in builder.old)) }
    ensures extends { Extends builder.old builder.new }
{
    let line = push_again(alloc, builder, rule.line)?;
    let proof = builder.copy()?;
    let SaidEquation { left, right, .. } = rule;
    let rule = Rule { left, right };
    Ok(CertifiedRule {
        said: SaidRule { rule, line },
        proof,
    })
}
