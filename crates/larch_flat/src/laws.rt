//! What holds of the flat traits of all sources, for crates above to cite. No function here does anything.
ghost use Rattle.std.specs.Prelude.{◌≡◌, ℕ, List, Result};
ghost use Rattle.larch_base.specs.declared.fault.Fault.{Fault};
ghost use Rattle.larch_flat_sources.specs.FlatMeaningGathered.{Gathered};
ghost use Rattle.larch_flat_sources.specs.FlatMeaningReached.{AgreeOn, AreReached};
ghost use Rattle.larch_flat_sources.specs.Sources.{Table, files_in};
ghost use Rattle.larch_flat.specs.Parts.{IsFlat, flat_trait};

/// What is known of a file is known of the file of that name among others too, where both say the same of all that is
/// reached from it; and its flat trait is the same, however many files there are.
pub fn what_is_known_is_known_elsewhere()
    ensures flat { (sources others : Table) (name : List ℕ) (names : List (List ℕ))
        → AreReached (files_in sources) name names → AgreeOn names (files_in sources) (files_in others)
        → flat_trait sources name ≡ flat_trait others name }
    ensures known { (sources others : Table) (name : List ℕ) (names : List (List ℕ)) (answer : Result Gathered Fault)
        → AreReached (files_in sources) name names → AgreeOn names (files_in sources) (files_in others)
        → IsFlat sources name answer → IsFlat others name answer }
{}
