use larch_flat_statements::MarkedStatements;
use larch_term::{Operators, Statements};
use std::marker::Model;

/// All that a flat trait gathers: its operators, its statements with the mark of those that are only assumed, and the
/// statements that are to be discharged. Contracts see it as what is gathered.
pub struct Flat {
    pub operators: Operators,
    pub marked: MarkedStatements,
    pub discharge: Statements,
}

// By a call, so that a proof takes a flat trait apart in one place alone.
impl Drop for Flat {
    fn drop(self) {
        let Flat {
            operators: _operators,
            marked: _marked,
            discharge: _discharge,
        } = self;
    }
}

impl Model for Flat {
    ghost use Rattle.larch_flat_statements.specs.FlatMeaningGathered.{Gathered};
    ghost use Rattle.larch_flat_gathering.specs.FlatCode.{coded_gathered};

    ghost Value = { Gathered };

    ghost coded = { coded_gathered };

    ghost view = { λ flat. record { operators = flat.operators; marked = flat.marked; discharge = flat.discharge } };
}
