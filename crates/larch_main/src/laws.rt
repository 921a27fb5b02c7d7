//! Laws about what a call writes that names files.
ghost use Rattle.std.specs.Prelude.{◌≡◌, ◌≢◌, ℕ, List};
ghost use Rattle.larch_io.specs.Folder.{FileMap};
ghost use Rattle.larch_main_files.specs.ModelsAnswerFailing.{HasLine, failing_line};
ghost use Rattle.larch_words.specs.declared.call.Call.TheVariants.{OnFiles};
ghost use Rattle.larch_words.specs.declared.call.Question.TheVariants.{Model, Trim, Verify};
ghost use Rattle.larch_words.specs.declared.call.Trial.{Trial};
ghost use Rattle.larch_words.specs.declared.call.Verification.{Verification};
ghost use Rattle.larch_main.specs.Running.{Output};
ghost use Rattle.larch_main_files.specs.Trim.{IsTrimmed};
ghost use Rattle.larch_main_files.specs.Verify.{IsShown};
ghost use Rattle.larch_main_status.specs.declared.status.Status.{Status};
ghost use Rattle.larch_main_status.specs.declared.status.Status.TheVariants.{Good, NoFile};

use larch_verify_law::laws::accepted_is_derivable;

/// Where `verify` ends well, the trait has the duty that was named, its statement is derivable from its theory, and in
/// no text that is tried as a model of the trait over these files it fails.
pub fn what_is_verified_is_derivable()
    ensures { (asked : Verification) (names : List (List ℕ)) (folder : FileMap) (input output : List ℕ)
        → Output (OnFiles (Verify asked) names) folder input output Good → IsShown folder asked names }
{
    accepted_is_derivable()
}

/// Where `trim` ends well, the duty that was named is derivable, `verify` over the same files accepts what was written,
/// each line of it is needed, and trimming it writes the same again.
pub fn what_is_trimmed_is_accepted()
    ensures { (asked : Verification) (names : List (List ℕ)) (folder : FileMap) (input output : List ℕ)
        → Output (OnFiles (Trim asked) names) folder input output Good → IsTrimmed folder asked names output }
{
    accepted_is_derivable()
}

/// Where `verify` ends well, nothing that `model` answers about the same trait among the same files of the folder has a
/// line that says that the duty fails; of a file that isn't there only its name is answered.
pub fn what_is_verified_never_fails()
    ensures { (asked : Verification) (tried : Trial) (names : List (List ℕ)) (folder : FileMap)
        (input output given text : List ℕ) (status : Status) → tried.stem ≡ asked.stem
        → Output (OnFiles (Verify asked) names) folder input output Good
        → Output (OnFiles (Model tried) names) folder given text status → status ≢ NoFile
        → HasLine text (failing_line asked.label) → ⊥ }
{
    accepted_is_derivable()
}
