ghost use Rattle.std.specs.Prelude.{◌≡◌, IfOk};
ghost use Rattle.larch_duties_meaning.specs.Implied.{is_among};
ghost use Rattle.larch_duties.specs.Kept.{Finds};

use indexmap::IndexSet;
use larch_base::Memory;
use larch_term::Operator;
use std::alloc::Global;
use std::marker::Model;

// Operators, each of which is found at once. Contracts see them as a list.
pub(crate) struct Among<'a> {
    operators: &'a [Operator],
    index: IndexSet<Operator>,
}

// By a call, so that a proof takes it apart in one place alone.
impl Drop for Among<'_> {
    fn drop(self) {
        let Among {
            operators: _operators,
            index: _index,
        } = self;
    }
}

impl<'a> Model for Among<'a> {
    ghost use Rattle.std.specs.Prelude.{List};
    ghost use Rattle.larch_term.specs.Operator.{PlainOperator};
    ghost use Rattle.larch_duties.specs.Kept.{Finds};

    ghost Value = { List PlainOperator };

    ghost view = { λ among. among.operators.now };

    ghost invariant = { λ among. Finds among.index.keys among.operators.now };
}

impl<'a> Among<'a> {
    // These operators.
    pub(crate) fn of(alloc: Global, operators: &'a [Operator]) -> Result<Among<'a>, Memory>
        ensures { IfOk result (λ among. among ≡ operators.now) }
    {
        let index = index_of(alloc, operators)?;
        Ok(Among { operators, index })
    }

    // Whether an operator is one of them. It takes no memory.
    pub(crate) fn has(&self, operator: &Operator) -> bool
        ensures { result ≡ is_among self.now operator.now }
    {
        self.index.contains(operator)
    }
}

// The operators, each once.
fn index_of(alloc: Global, operators: &[Operator]) -> Result<IndexSet<Operator>, Memory>
    ensures { IfOk result (λ index. Finds index.keys operators.now) }
{
    let mut index = IndexSet::new(alloc);
    for operator in operators {
        let operator = operator.copy()?;
        index.insert(operator)?;
    }
    Ok(index)
}
