ghost use Rattle.std.specs.Prelude.{◌≡◌, ◌↔◌, IsTrue, IfOk};
ghost use Rattle.larch_term.specs.Operator.{PlainOperator, plain};

use larch_base::{Memory, Name, Sequence};
use std::alloc::Global;
use std::marker::Model;
use std::rc::Rc;

/// A sort: a name.
pub type Sort = Name;

/// Several sorts, in order.
pub type Sorts = Sequence<Name>;

/// An operator: a name, domain sorts and a range sort, which its copies share. Contracts see it as a plain
/// operator whose name is bytes.
#[derive(Drop)]
pub struct Operator {
    parts: Rc<Parts>,
}

#[derive(Drop)]
struct Parts {
    name: Name,
    domain: Sorts,
    range: Sort,
}

impl Model for Operator {
    ghost use Rattle.larch_term.specs.Operator.{PlainOperator, coded_operator};

    ghost Value = { PlainOperator };

    ghost coded = { coded_operator };

    ghost use Rattle.larch_term.specs.OperatorView.{plain_operator};

    ghost view = { λ operator. plain_operator operator.parts.value };
}

impl Operator {
    /// The operator with this name, these domain sorts and this range sort.
    pub fn new(alloc: Global, name: Name, domain: Sorts, range: Sort) -> Result<Operator, Memory>
        ensures { IfOk result (λ operator. operator ≡ record { name = plain name; domain = domain; range = range }) }
    {
        let parts = Rc::new(
            alloc,
            Parts {
                name,
                domain,
                range,
            },
        )?;
        Ok(Operator { parts })
    }

    /// The same operator once more. It takes no memory of its own, but there may be too many copies.
    pub fn copy(&self) -> Result<Operator, Memory>
        ensures { IfOk result (λ operator. operator ≡ self.now) }
    {
        let parts = self.parts.clone()?;
        Ok(Operator { parts })
    }

    /// Its name.
    pub fn name(&self) -> &Name
        ensures { plain result.now ≡ self.now.name }
    {
        &self.parts.name
    }

    /// Its domain sorts.
    pub fn domain(&self) -> &[Sort]
        ensures { result.now ≡ self.now.domain }
    {
        self.parts.domain.as_slice()
    }

    /// Its range sort.
    pub fn range(&self) -> &Sort
        ensures { result.now ≡ self.now.range }
    {
        &self.parts.range
    }
}

/// Whether two operators have one name, one domain and one range.
pub fn same_operator(left: &Operator, right: &Operator) -> bool
    ensures { IsTrue result ↔ (left.now ≡ right.now) }
{
    left.name() == right.name()
        && left.range() == right.range()
        && same_sorts(left.domain(), right.domain())
}

fn same_sorts(left: &[Sort], right: &[Sort]) -> bool
    ensures { IsTrue result ↔ (left.now ≡ right.now) }
{
    left == right
}
