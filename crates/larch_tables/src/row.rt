ghost use Rattle.std.specs.Prelude.{◌≡◌};
ghost use Rattle.larch_calculus.specs.BaseByNumber.{numbered};

use std::marker::Model;

/// One side of an equation: the codes of its symbols and variables in preorder. The codes 0 to 9 are `true`, `false`,
/// `~`, `/\`, `\/`, `=>`, `<=>`, `=`, `~=` and `if`; the codes 10 to 14 are the variables `x`, `y`, `z`, `a` and `b`.
/// `x`, `y` and `z` are of sort Bool, `a` and `b` of the row's sort.
#[derive(Clone, Copy, Debug, PartialEq, Eq, Drop)]
pub struct Side {
    /// How many codes it has.
    pub length: u8,
    /// Its codes. What stands behind them means nothing.
    pub codes: [u8; 8],
}

/// Both sides of an equation.
#[derive(Clone, Copy, Debug, PartialEq, Eq, Drop)]
pub struct Sides {
    pub left: Side,
    pub right: Side,
}

/// A row: an equation, and the equations that follow from it.
#[derive(Clone, Copy, Debug, PartialEq, Eq, Drop)]
pub struct Row {
    pub given: Sides,
    /// The equations that follow. What stands behind the counted ones means nothing.
    pub consequences: [Sides; 2],
    /// How many equations follow.
    pub count: u8,
    /// Whether it is offered at every sort. Other rows are offered at Bool alone.
    pub sorted: bool,
}

// A row as the tables hold it.
#[derive(Clone, Copy, Debug, PartialEq, Eq, Drop)]
pub(crate) struct Entry {
    pub(crate) given: Sides,
    pub(crate) first: Sides,
    pub(crate) second: Sides,
    pub(crate) count: u8,
    pub(crate) sorted: bool,
}

/// Several rows by number. Contracts see them as a list.
#[derive(Drop)]
pub struct Table<const N: usize> {
    pub(crate) entries: &'static [Entry; N],
}

impl<const N: usize> Model for Table<N> {
    ghost use Rattle.std.specs.Prelude.{◌≡◌, List, length, map};
    ghost use Rattle.larch_tables.specs.declared.row.Row.{Row};
    ghost use Rattle.larch_tables.specs.Row.{row_of_entry};

    ghost Value = { List Row };

    ghost view = { λ table. map row_of_entry table.entries.now };

    ghost invariant = { λ table. length table.entries.now ≡ N };
}

impl<const N: usize> Table<N> {
    /// The row with a number, counted from 1. `None` exactly where no row has the number. It takes no memory.
    pub fn row(&self, number: u32) -> Option<Row>
        ensures { result ≡ numbered self.now number }
    {
        let entries = self.entries;
        let index = number.checked_sub(1)? as usize;
        if index >= entries.len() {
            return None;
        }
        let entry = entries[index];
        Some(Row {
            given: entry.given,
            consequences: [entry.first, entry.second],
            count: entry.count,
            sorted: entry.sorted,
        })
    }
}
