ghost use Rattle.std.specs.Prelude.{◌≡◌};

use crate::declared::{RawDecls, RawForms, RawOpRefs, RawWord};
use crate::reference::{RawReferences, RawRefs};
use crate::shorthand::RawShorthands;
use crate::term::RawTerm;
use larch_base::{Name, Pos, Sequence};

/// A variable with its sort.
#[derive(Debug, Drop)]
pub struct RawVar {
    pub name: RawWord,
    pub sort: RawWord,
}

/// The variables of an item, in order.
pub type RawVars = Sequence<RawVar>;

/// The right side of an equation, and where the `==` stands.
#[derive(Drop)]
pub struct RawRight {
    pub term: RawTerm,
    pub pos: Pos,
}

/// An equation, or a formula where it has no right side, and where its first token stands.
#[derive(Drop)]
pub struct RawEquation {
    pub left: RawTerm,
    pub right: Option<RawRight>,
    pub first: Pos,
}

/// The equations of an item, in order.
pub type RawEquations = Sequence<RawEquation>;

/// What a clause says of its operators.
#[derive(Clone, Copy, Debug, PartialEq, Eq)]
pub enum ClauseKind {
    /// They generate the values of its sort.
    Generated,
    /// They tell the values of its sort apart.
    Partitioned,
}

/// An item of assertions.
#[derive(Drop)]
pub enum RawItem {
    /// A clause of a sort, with references to its operators.
    Clause(ClauseKind, RawWord, RawOpRefs),
    /// Equations over these variables.
    Equations(RawVars, RawEquations),
}

/// The items of a trait, in order.
pub type RawItems = Sequence<RawItem>;

/// Operators that a trait is said to convert, and terms that are exempted, which are equations without a right side.
#[derive(Drop)]
pub struct RawConversion {
    pub converted: RawOpRefs,
    pub variables: RawVars,
    pub exempted: RawEquations,
}

/// The conversions of a trait, in order.
pub type RawConversions = Sequence<RawConversion>;

/// A trait as it is written; whether an implied part stands in it, with its references and items.
#[derive(Drop)]
pub struct RawTrait {
    pub name: RawWord,
    pub formals: RawForms,
    pub shorthands: RawShorthands,
    pub references: RawReferences,
    pub declarations: RawDecls,
    pub items: RawItems,
    pub implies: bool,
    pub implied: RawRefs,
    pub implied_items: RawItems,
    pub conversions: RawConversions,
}

impl RawTrait {
    /// The name of the trait, without its position.
    pub fn title(&self) -> &Name
        ensures { result.now ≡ self.now.name.name }
    {
        &self.name.name
    }
}
