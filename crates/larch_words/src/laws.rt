//! Laws about what words ask for.
ghost use Rattle.std.specs.Prelude.{◌≡◌, ◌<◌, ◌≤◌, ℕ, true, List};
ghost use Rattle.std.specs.List.{list_all};
ghost use Rattle.larch_base.specs.FileName.{is_file_name};
ghost use Rattle.larch_words.specs.Call.{call_of, files_named, is_certificate, is_model};
ghost use Rattle.larch_words.specs.declared.call.Call.TheVariants.{Generate, Migrate, OnFiles};
ghost use Rattle.larch_words.specs.declared.call.Generation.{Generation};
ghost use Rattle.larch_words.specs.declared.call.Question.TheVariants.{Model, Trim, Verify};
ghost use Rattle.larch_words.specs.declared.call.Trial.{Trial};
ghost use Rattle.larch_words.specs.declared.call.Verification.{Verification};
ghost use Rattle.larch_words.specs.declared.options.TheConstants.{MAX_SEED, MAX_SIZE};

/// The files that a call names have names of files.
pub fn calls_name_files()
    ensures { (words : List (List ℕ)) → list_all is_file_name (files_named (call_of words)) ≡ true }
{}

/// The certificate that a call names has the name of one.
pub fn certificates_are_named()
    ensures verify { (words names : List (List ℕ)) (asked : Verification) → call_of words ≡ OnFiles (Verify asked) names
        → is_certificate asked.certificate ≡ true }
    ensures trim { (words names : List (List ℕ)) (asked : Verification) → call_of words ≡ OnFiles (Trim asked) names
        → is_certificate asked.certificate ≡ true }
    ensures migrate { (words : List (List ℕ)) (certificate : List ℕ) → call_of words ≡ Migrate certificate
        → is_certificate certificate ≡ true }
{}

/// The model that a call names has the name of one.
pub fn models_are_named()
    ensures { (words names : List (List ℕ)) (tried : Trial) → call_of words ≡ OnFiles (Model tried) names
        → is_model tried.model ≡ true }
{}

/// The seed and the size that a call names are no larger than may be given, and the size is from 1.
pub fn generations_are_small()
    ensures seed { (words : List (List ℕ)) (traits : Generation) → call_of words ≡ Generate traits
        → traits.seed ≤ MAX_SEED }
    ensures size { (words : List (List ℕ)) (traits : Generation) → call_of words ≡ Generate traits
        → traits.size ≤ MAX_SIZE }
    ensures some { (words : List (List ℕ)) (traits : Generation) → call_of words ≡ Generate traits
        → 0 < traits.size }
{}
