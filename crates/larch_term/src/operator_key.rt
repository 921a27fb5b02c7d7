ghost use Rattle.std.specs.Prelude.{◌≡◌};
ghost use Rattle.std.proofs.Common.{ap};
ghost use Rattle.std.specs.Cmp.{decided, partial_equiv_from_equiv};
ghost use Rattle.larch_term.specs.OperatorKey.{same_operator, operator_input, operator_Decides};

use crate::operator::{Operator, same_operator};
use std::hash::{Hash, Hasher};

impl PartialEq for Operator {
    ghost eq = { same_operator };

    ghost laws = { partial_equiv_from_equiv (decided same_operator operator_Decides) };

    fn eq(&self, other: &Operator) -> bool {
        same_operator(self, other)
    }
}

impl Eq for Operator {
    ghost laws = { decided same_operator operator_Decides };
}

impl Hash for Operator {
    ghost hash_input = { operator_input };

    ghost respects_eq = { λ f g e. ap operator_input ((operator_Decides f g).0 e) };

    fn hash<H: Hasher>(&self, state: &mut H) {
        self.name().hash(state);
        self.domain().hash(state);
        self.range().hash(state);
    }
}
