//! Laws about what is answered to questions about files.
ghost use Rattle.std.specs.Prelude.{◌≡◌, ℕ, List, flat_map, map};
ghost use Rattle.larch_words.specs.declared.call.Question.TheVariants.{Complete, Derive};
ghost use Rattle.larch_words.specs.declared.call.DutyName.{DutyName};
ghost use Rattle.larch_main_files.specs.Derive.{IsDerivation};
ghost use Rattle.larch_traits.specs.Files.{Table};
ghost use Rattle.larch_traits.specs.Reading.{read_files};
ghost use Rattle.larch_io.specs.Folder.{FileMap};
ghost use Rattle.larch_words.specs.declared.call.Question.{Question};
ghost use Rattle.larch_main_status.specs.Status.{IsDone};
ghost use Rattle.larch_main_files.specs.Complete.{HasAll, HasCertificate, IsThere};
ghost use Rattle.larch_main_files.specs.Completion.{IsCompleted};
ghost use Rattle.larch_main_files.specs.Laws.{stems_in};
ghost use Rattle.larch_main_files.specs.Migrate.{IsMigrated, MayMigrate};
ghost use Rattle.larch_main_files.specs.Questions.{MayAnswer};
ghost use Rattle.larch_main_files.specs.Report.{check_of};
ghost use Rattle.larch_main_status.specs.declared.status.Status.{Status};
ghost use Rattle.larch_main_status.specs.declared.status.Status.TheVariants.{Good};

use larch_complete_answer::what_is_told_complete_decides;
use larch_traits::laws::each_flat_trait_is_told;

/// A check has exactly one line of each trait file that was read, in their order.
pub fn each_trait_has_one_line()
    ensures { (files : Table) → flat_map stems_in (check_of files) ≡ map (λ source. source.0) (read_files files) }
{
    each_flat_trait_is_told()
}

/// Where a folder has all that is asked about, within the limits, a certificate in its grammar, and a model in that of
/// its trait, of which each statement has few enough assignments, all of it is gathered.
pub fn what_is_there_is_gathered()
    ensures { (question : Question) (names : List (List ℕ)) (folder : FileMap) → HasAll question names folder
        → IsThere question names folder }
{}

/// And then what is answered ends with status 0 or 1.
pub fn what_is_gathered_is_done()
    ensures { (question : Question) (names : List (List ℕ)) (folder : FileMap) (output : List ℕ) (status : Status)
        → IsThere question names folder → MayAnswer question names folder output status → IsDone status }
{}

/// Where a folder has a certificate within the limits, `migrate` ends with status 0.
pub fn what_is_there_is_migrated()
    ensures { (certificate : List ℕ) (folder : FileMap) (output : List ℕ) (status : Status)
        → HasCertificate folder certificate → MayMigrate certificate folder output status → status ≡ Good }
{}

/// Where `migrate` ends well, `verify` answers to what was written what it answers to the certificate, whichever duty
/// it is for; and migrating it writes the same again.
pub fn what_is_migrated_is_the_same()
    ensures { (certificate : List ℕ) (folder : FileMap) (output : List ℕ)
        → MayMigrate certificate folder output Good → IsMigrated folder certificate output }
{}

/// Where `derive` ends well, `verify` over the same files accepts what was written for the duty that was named; so the
/// duty is derivable from its own theory.
pub fn what_is_derived_is_accepted()
    ensures { (asked : DutyName) (limit : ℕ) (names : List (List ℕ)) (folder : FileMap) (output : List ℕ)
        → MayAnswer (Derive asked limit) names folder output Good → IsDerivation folder asked names output }
{}

/// Where `complete` ends well, the rules that were written are derivable from the theory of the trait, and give both
/// sides of each of its equations and of each of their own critical pairs one normal form.
pub fn what_is_completed_decides()
    ensures { (stem : List ℕ) (limit : ℕ) (names : List (List ℕ)) (folder : FileMap) (output : List ℕ)
        → MayAnswer (Complete stem limit) names folder output Good → IsCompleted folder stem limit names output }
{
    what_is_told_complete_decides()
}
