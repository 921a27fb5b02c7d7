ghost use Rattle.larch_tables.specs.Tables.{HasRows, built_in_rows, deduction_rows};

use crate::row::{Entry, Side, Sides, Table};

// The code of a word or a variable.
macro_rules! code {
    (true) => { 0 };
    (false) => { 1 };
    (not) => { 2 };
    (and) => { 3 };
    (or) => { 4 };
    (implies) => { 5 };
    (iff) => { 6 };
    (equal) => { 7 };
    (unequal) => { 8 };
    (if) => { 9 };
    (x) => { 10 };
    (y) => { 11 };
    (z) => { 12 };
    (a) => { 13 };
    (b) => { 14 };
}

// The side with these words and variables in preorder.
macro_rules! side {
    () => { Side { length: 0, codes: [0; 8] } };
    ($p:tt) => { Side { length: 1, codes: [code!($p), 0, 0, 0, 0, 0, 0, 0] } };
    ($p:tt $q:tt) => { Side { length: 2, codes: [code!($p), code!($q), 0, 0, 0, 0, 0, 0] } };
    ($p:tt $q:tt $r:tt) => { Side { length: 3, codes: [code!($p), code!($q), code!($r), 0, 0, 0, 0, 0] } };
    ($p:tt $q:tt $r:tt $s:tt) => {
        Side { length: 4, codes: [code!($p), code!($q), code!($r), code!($s), 0, 0, 0, 0] }
    };
    ($p:tt $q:tt $r:tt $s:tt $t:tt) => {
        Side { length: 5, codes: [code!($p), code!($q), code!($r), code!($s), code!($t), 0, 0, 0] }
    };
}

macro_rules! sides {
    ([$($left:tt)*] == [$($right:tt)*]) => { Sides { left: side!($($left)*), right: side!($($right)*) } };
}

macro_rules! is_sorted {
    () => { false };
    (each) => { true };
}

// A row: its sides, whether it is offered at every sort, and what follows.
macro_rules! entry {
    ($sides:expr, $sorted:expr;) => {
        Entry { given: $sides, first: sides!([] == []), second: sides!([] == []), count: 0, sorted: $sorted }
    };
    ($sides:expr, $sorted:expr; $left:tt == $right:tt) => {
        Entry { given: $sides, first: sides!($left == $right), second: sides!([] == []), count: 1, sorted: $sorted }
    };
    ($sides:expr, $sorted:expr; $left:tt == $right:tt, $left_too:tt == $right_too:tt) => {
        Entry {
            given: $sides,
            first: sides!($left == $right),
            second: sides!($left_too == $right_too),
            count: 2,
            sorted: $sorted,
        }
    };
}

// Rows, one a line: both sides in brackets, and after `gives` the equations that follow.
macro_rules! rows {
    ($($left:tt == $right:tt $(at $each:ident sort)? $(gives $($further_left:tt == $further_right:tt),+)?;)+) => {
        [$(entry!(sides!($left == $right), is_sorted!($($each)?); $($($further_left == $further_right),+)?)),+]
    };
}

static BUILT_IN: [Entry; 40] = rows![
    [not true] == [false];
    [not false] == [true];
    [not not x] == [x];
    [and true x] == [x];
    [and x true] == [x];
    [and false x] == [false];
    [and x false] == [false];
    [and x x] == [x];
    [or true x] == [true];
    [or x true] == [true];
    [or false x] == [x];
    [or x false] == [x];
    [or x x] == [x];
    [implies true x] == [x];
    [implies false x] == [true];
    [implies x true] == [true];
    [implies x false] == [not x];
    [implies x x] == [true];
    [iff true x] == [x];
    [iff x true] == [x];
    [iff false x] == [not x];
    [iff x false] == [not x];
    [iff x x] == [true];
    [equal a a] == [true] at each sort;
    [equal x y] == [iff x y];
    [unequal a b] == [not equal a b] at each sort;
    [if true a b] == [a] at each sort;
    [if false a b] == [b] at each sort;
    [if x a a] == [a] at each sort;
    [and x not x] == [false];
    [and not x x] == [false];
    [or x not x] == [true];
    [or not x x] == [true];
    [equal a b] == [equal b a] at each sort;
    [implies and x y x] == [true];
    [implies and x y y] == [true];
    [implies x or x y] == [true];
    [implies y or x y] == [true];
    [or implies x y x] == [true];
    [implies y implies x y] == [true];
];

static DEDUCTIONS: [Entry; 7] = rows![
    [and x y] == [true] gives [x] == [true], [y] == [true];
    [or x y] == [false] gives [x] == [false], [y] == [false];
    [not x] == [true] gives [x] == [false];
    [not x] == [false] gives [x] == [true];
    [implies x y] == [false] gives [x] == [true], [y] == [false];
    [equal a b] == [true] at each sort gives [a] == [b];
    [iff x y] == [true] gives [x] == [y];
];

/// The rows for rewriting, 1 to 33, and those that only certificates cite, 34 to 40. It takes no memory.
pub fn built_in() -> Table<40>
    ensures { HasRows built_in_rows result }
{
    Table { entries: &BUILT_IN }
}

/// The deduction rows, in the order in which they are tried. It takes no memory.
pub fn deductions() -> Table<7>
    ensures { HasRows deduction_rows result }
{
    Table {
        entries: &DEDUCTIONS,
    }
}
