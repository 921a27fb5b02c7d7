ghost use Rattle.std.specs.Prelude.{◌≡◌, IfOk};
ghost use Rattle.larch_sorts_counts.specs.NumberView.{view_held};

use larch_sorts_meaning::from_base::Memory;
use std::alloc::Global;
use std::marker::Model;
use std::rc::RcSlice;

/// The numbers of a domain. Contracts see them as a list. Up to three stand in it itself, so that to go through the
/// operators of a name is to go through memory in order.
#[derive(Drop)]
pub struct NumberList {
    held: Held,
}

// So many numbers, or more.
#[derive(Drop)]
pub(crate) enum Held {
    Nothing,
    One([u32; 1]),
    Two([u32; 2]),
    Three([u32; 3]),
    Many(RcSlice<u32>),
}

impl Model for NumberList {
    ghost use Rattle.std.specs.Prelude.{List, ℕ};
    ghost use Rattle.larch_sorts_counts.specs.NumberView.{view_held};

    ghost Value = { List ℕ };

    ghost view = { λ list. view_held list.held };
}

impl NumberList {
    /// These numbers. Up to three take no memory of their own.
    pub fn of(alloc: Global, numbers: &[u32]) -> Result<NumberList, Memory>
        ensures { IfOk result (λ list. list ≡ numbers.now) }
    {
        let held = held_of(alloc, numbers)?;
        Ok(NumberList { held })
    }

    /// The numbers. It takes no memory.
    pub fn as_slice(&self) -> &[u32]
        ensures { result.now ≡ self.now }
    {
        match &self.held {
            Held::Nothing => &[],
            Held::One(numbers) => numbers,
            Held::Two(numbers) => numbers,
            Held::Three(numbers) => numbers,
            Held::Many(numbers) => numbers.as_slice(),
        }
    }
}

// Numbers as they are held.
fn held_of(alloc: Global, numbers: &[u32]) -> Result<Held, Memory>
    ensures { IfOk result (λ held. view_held held ≡ numbers.now) }
{
    match numbers {
        [] => Ok(Held::Nothing),
        [one] => Ok(Held::One([*one])),
        [one, two] => Ok(Held::Two([*one, *two])),
        [one, two, three] => Ok(Held::Three([*one, *two, *three])),
        _ => {
            let shared = RcSlice::from_slice(alloc, numbers)?;
            Ok(Held::Many(shared))
        }
    }
}
