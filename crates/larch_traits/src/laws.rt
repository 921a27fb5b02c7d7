//! What holds of the flat traits and the duties of all trait files, for crates above to cite. No function here does
//! anything.
ghost use Rattle.std.specs.Prelude.{◌≡◌, ℕ, List, All, Ok};
ghost use Rattle.std.specs.Option.{option_map};
ghost use Rattle.larch_duties_meaning.specs.CalculusRenaming.{HasPlainNames};
ghost use Rattle.larch_duties_meaning.specs.SortsMeaningLaws.{OperatorSorts, StatementSorts, StatementVariables};
ghost use Rattle.larch_base_meaning.specs.Word.{IsWord};
ghost use Rattle.larch_term.specs.Statement.{IsTheory};
ghost use Rattle.larch_duties_meaning.specs.FlatMeaningFlat.{FlatTrait, theory_of};
ghost use Rattle.larch_duties_meaning.specs.FlatMeaningLaws.{IsInWords, IsStatedOver, IsTold};
ghost use Rattle.larch_duties_meaning.specs.Claims.{claims_in, duty_of};
ghost use Rattle.larch_duties_meaning.specs.Duties.{Duties, all_duties};
ghost use Rattle.larch_duties_meaning.specs.Laws.{IsDutyInWords, IsSoundDuty};
ghost use Rattle.larch_flat.specs.FlatSourcesSources.{files_in};
ghost use Rattle.larch_traits.specs.Files.{Table};
ghost use Rattle.larch_traits.specs.Reading.{AreDeciding, HaveSame, duties_of, flat_of};
ghost use Rattle.larch_traits.specs.Reading.{read_files, read_text, trait_text};

/// There is an answer for each name: references are followed deep enough.
pub fn each_flat_trait_is_told()
    ensures { (files : Table) (stem : List ℕ) → IsTold (flat_of files stem) }
{}

/// The theory of a flat trait is a theory, and all that it states or leaves to discharge is well sorted over its own
/// operators.
pub fn flat_traits_are_theories()
    ensures theory { (files : Table) (stem : List ℕ) (t : FlatTrait) → flat_of files stem ≡ Ok t
        → IsTheory (theory_of t) }
    ensures stated { (files : Table) (stem : List ℕ) (t : FlatTrait) → flat_of files stem ≡ Ok t
        → All (IsStatedOver t.operators) (theory_of t).statements }
    ensures discharge { (files : Table) (stem : List ℕ) (t : FlatTrait) → flat_of files stem ≡ Ok t
        → All (IsStatedOver t.operators) t.discharge }
{}

/// Each sort and each variable in a flat trait, and in what is to be discharged, is a word.
pub fn flat_traits_have_words()
    ensures operators { (files : Table) (stem : List ℕ) (t : FlatTrait) → flat_of files stem ≡ Ok t
        → All (OperatorSorts IsWord) t.operators }
    ensures sorts { (files : Table) (stem : List ℕ) (t : FlatTrait) → flat_of files stem ≡ Ok t
        → All (StatementSorts IsWord) (theory_of t).statements }
    ensures variables { (files : Table) (stem : List ℕ) (t : FlatTrait) → flat_of files stem ≡ Ok t
        → All (StatementVariables IsWord) (theory_of t).statements }
    ensures discharge { (files : Table) (stem : List ℕ) (t : FlatTrait) → flat_of files stem ≡ Ok t
        → All IsInWords t.discharge }
{}

/// Each sort and each variable in a duty, in its theory and in its statement, is a word; with the number of its clause
/// or without.
pub fn duties_have_words()
    ensures duties { (files : Table) (stem : List ℕ) (d : Duties) → duties_of files stem ≡ Ok d
        → All IsDutyInWords (all_duties d) }
    ensures claims { (files : Table) (stem : List ℕ) (d : Duties) → duties_of files stem ≡ Ok d
        → All (λ c. IsDutyInWords (duty_of c)) (claims_in d) }
{}

/// The theory of each duty is a theory of plain names, and its statement is one over it.
pub fn duties_have_theories()
    ensures sound { (files : Table) (stem : List ℕ) (d : Duties) → duties_of files stem ≡ Ok d
        → All IsSoundDuty (all_duties d) }
    ensures plain { (files : Table) (stem : List ℕ) (d : Duties) → duties_of files stem ≡ Ok d
        → All (λ duty. HasPlainNames duty.theory) (all_duties d) }
{}

/// What is read of a stem is what the text of its trait file says, whatever other files there are.
pub fn each_file_is_read_by_itself()
    ensures { (files : Table) (stem : List ℕ)
        → files_in (read_files files) stem ≡ option_map read_text (trait_text files stem) }
{}

/// Where files have the same texts of all that decides the trait of a stem, the same decides it in both; and its flat
/// trait and its duties, or what is wrong first, are the same.
pub fn what_is_decided_is_the_same()
    ensures deciding { (files others : Table) (stem : List ℕ) (stems : List (List ℕ)) → AreDeciding files stem stems
        → HaveSame stems files others → AreDeciding others stem stems }
    ensures flat { (files others : Table) (stem : List ℕ) (stems : List (List ℕ)) → AreDeciding files stem stems
        → HaveSame stems files others → flat_of files stem ≡ flat_of others stem }
    ensures duties { (files others : Table) (stem : List ℕ) (stems : List (List ℕ)) → AreDeciding files stem stems
        → HaveSame stems files others → duties_of files stem ≡ duties_of others stem }
{}
