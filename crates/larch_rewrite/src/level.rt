ghost use Rattle.std.specs.Prelude.{◌≡◌};
ghost use Rattle.larch_rewrite.specs.Level.{level_of};

use larch_rewrite_step::Encodings;
use larch_store::{Shared, SharedList};

/// The work on one term: the term whose normal form is sought, the budget with which that began, and the term that it
/// has come to, with the way there.
#[derive(Drop)]
pub(crate) struct Level {
    pub(crate) start: Shared,
    pub(crate) begun: u32,
    pub(crate) way: Option<u64>,
    pub(crate) term: Shared,
}

/// A level in the midst of its term's arguments: the first ones are done.
#[derive(Drop)]
pub(crate) struct Frame {
    pub(crate) level: Level,
    pub(crate) done: SharedList,
}

/// What is to be done next on the innermost level.
#[derive(Drop)]
pub(crate) enum Turn {
    /// The work on its term begins.
    Begin(Level),
    /// Its term's arguments are to be normalised, behind those that are done.
    Arguments(Frame),
    /// Its term's arguments are normal.
    Root(Level),
    /// Its term is the normal form.
    Finish(Level),
}

/// What applications take: what is left of the budget, and how lines write terms.
#[derive(Drop)]
pub(crate) struct Means {
    pub(crate) left: u32,
    pub(crate) encodings: Encodings,
}

impl Turn {
    // The level that it is about.
    pub(crate) fn into_level(self) -> Level
        ensures { result ≡ level_of self }
    {
        match self {
            Turn::Begin(level) => level,
            Turn::Arguments(frame) => {
                let Frame { level, done: _ } = frame;
                level
            }
            Turn::Root(level) => level,
            Turn::Finish(level) => level,
        }
    }
}
