//! Certificates by new names, computed. No function here does anything.
ghost use Rattle.std.specs.Prelude.{◌≡◌, None};
ghost use Rattle.larch_calculus.specs.Example.{numbers, sum_from_nought};
ghost use Rattle.larch_verify_meaning.specs.Acceptance.{verdict};
ghost use Rattle.larch_verify_meaning.specs.Examples.{sample};
ghost use Rattle.larch_verify_meaning.specs.RenamingRenaming.{renamed_statement};
ghost use Rattle.larch_import_names.specs.Names.{renaming};
ghost use Rattle.larch_import_meaning.specs.Examples.{as_counts, count_from_none, count_places, counts, of_fresh_sort};
ghost use Rattle.larch_import_meaning.specs.Examples.{of_no_sort};
ghost use Rattle.larch_import_meaning.specs.Imported.{import_lines};

/// A certificate over the numbers is one over a theory that has them by other names, for the statement by those names.
pub fn sums_are_counts()
    ensures statement { renamed_statement (renaming as_counts) sum_from_nought ≡ count_from_none }
    ensures accepted { verdict counts count_from_none (import_lines as_counts numbers counts count_places sample)
        ≡ None }
{}

/// A sort that isn't named gets letters, so that it isn't taken for a new one of its name.
pub fn other_sorts_are_fresh()
    ensures { import_lines as_counts numbers counts count_places of_no_sort ≡ of_fresh_sort }
{}
