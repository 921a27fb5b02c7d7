//! What holds of all sources, for crates above to cite. No function here does anything.
ghost use Rattle.std.specs.Prelude.{◌≡◌, ℕ, ◌<◌, List, length};
ghost use Rattle.std.specs.List.{list_any};
ghost use Rattle.larch_flat_meaning.specs.Laws.{AreAmong};
ghost use Rattle.larch_flat_sources.specs.Sources.{AreApart, Table, files_in, name_at, names_in};

/// All names of which there are files are among those of the table, of which there are as many as files.
pub fn sources_are_among()
    ensures among { (table : Table) → AreAmong (files_in table) (names_in table) }
    ensures length { (table : Table) → length (names_in table) ≡ length table }
{}
