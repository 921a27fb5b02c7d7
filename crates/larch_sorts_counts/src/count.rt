ghost use Rattle.std.specs.Prelude.{◌≡◌, false};
ghost use Rattle.larch_sorts_counts.specs.Count.{plus, times};
ghost use Rattle.larch_sorts_counts.specs.declared.count.Count.TheVariants.{Never};

/// How often something is found: never, once, or in several ways.
#[derive(Clone, Copy)]
pub enum Count {
    /// Nothing was found.
    Never,
    /// One thing was found.
    Once,
    /// Several things were found.
    Often,
}

impl Count {
    // How often one or another thing is found, where they are never the same.
    pub(crate) fn plus(self, other: Count) -> Count
        ensures { result ≡ plus self other }
    {
        match (self, other) {
            (Count::Never, other) => other,
            (count, Count::Never) => count,
            (_, _) => Count::Often,
        }
    }

    // How often one thing is found together with another.
    pub(crate) fn times(self, other: Count) -> Count
        ensures { result ≡ times self other }
    {
        match (self, other) {
            (Count::Never, _) | (_, Count::Never) => Count::Never,
            (Count::Once, other) => other,
            (Count::Often, _) => Count::Often,
        }
    }

    // Whether something is found at all.
    pub(crate) fn occurs(self) -> bool
        ensures { result ≡ false → self ≡ Never }
    {
        match self {
            Count::Never => false,
            Count::Once | Count::Often => true,
        }
    }
}
