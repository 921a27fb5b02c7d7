//! Texts of models, read. No function here does anything.
ghost use Rattle.std.specs.Prelude.{◌≡◌, ◌++◌, codes, true, None, Ok, Err};
ghost use Rattle.larch_calculus.specs.Example.{numbers, sum_from_nought};
ghost use Rattle.larch_models_meaning.specs.Computed.{holds};
ghost use Rattle.larch_models_meaning.specs.Examples.{bits_as_data, bits_text};
ghost use Rattle.larch_models_meaning.specs.FiniteModel.{first_failing, interpretation_of};
ghost use Rattle.larch_models_meaning.specs.ModelText.{read_model};

/// Numbers modulo 2 as data: the statements of the example hold, and with one wrong entry the third is the first that
/// doesn't.
pub fn modulo_two_as_data()
    ensures none { first_failing (interpretation_of bits_as_data) numbers.statements ≡ None }
    ensures follows { holds (interpretation_of bits_as_data) sum_from_nought ≡ true }
{}

/// The text of a model is read as it.
pub fn a_text_is_read()
    ensures { read_model numbers.operators bits_text ≡ Ok bits_as_data }
{}

/// What is outside the grammar is told by its line: no first line; a line of Bool; a second line of a sort; a sort
/// without values; a table with a value too many, or with one that the range hasn't; a missing table, which would be
/// the line after the last; and a line behind the last table.
pub fn lines_outside()
    ensures no_model { read_model numbers.operators (codes "models\n") ≡ Err 1 }
    ensures truth { read_model numbers.operators (codes "model\nsort Bool 2\n") ≡ Err 2 }
    ensures twice { read_model numbers.operators (codes "model\nsort N 2\nsort N 2\n") ≡ Err 3 }
    ensures empty { read_model numbers.operators (codes "model\nsort N 0\n") ≡ Err 2 }
    ensures long { read_model numbers.operators (codes "model\nsort N 2\nop 1 0 0\n") ≡ Err 3 }
    ensures high { read_model numbers.operators (codes "model\nsort N 2\nop 1 2\n") ≡ Err 3 }
    ensures missing { read_model numbers.operators (codes "model\nsort N 2\nop 1 0\nop 2 1 0\n") ≡ Err 5 }
    ensures further { read_model numbers.operators (bits_text ++ codes "op 4 0\n") ≡ Err 6 }
    ensures unended { read_model numbers.operators (codes "model\nsort N 2") ≡ Err 2 }
{}
