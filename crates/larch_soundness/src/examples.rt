//! A model, and what is none. No function here does anything.
ghost use Rattle.larch_calculus.specs.Example.{numbers};
ghost use Rattle.larch_models_meaning.specs.Examples.{modulo_two, wrong_modulo_two};
ghost use Rattle.larch_models_meaning.specs.Models.{IsModel};

/// Numbers modulo 2 are a model of the example.
pub fn numbers_modulo_two()
    ensures { IsModel modulo_two numbers }
{}

/// With one wrong entry in the table of the sum they aren't.
pub fn one_wrong_entry()
    ensures { IsModel wrong_modulo_two numbers → ⊥ }
{}
