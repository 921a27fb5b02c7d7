//! Answers worked out from the bytes of files, as the definitions compute them. No function here does anything.
ghost use Rattle.std.specs.Prelude.{◌≡◌, ◌<◌, ◌++◌, ℕ, List, [], ◌∷◌, Some, codes, length};
ghost use Rattle.larch_base.specs.declared.label.Label.TheVariants.{Imply};
ghost use Rattle.larch_base.specs.declared.limits.TheConstants.{MAX_FILE_BYTES};
ghost use Rattle.larch_io.specs.Folder.{FileMap, file_of};
ghost use Rattle.larch_words.specs.declared.call.Question.TheVariants.{Check, Complete, Obligations};
ghost use Rattle.larch_main_files.specs.Examples.{asked_of_one, differing, model_of, one_file, one_folder, with_certificate};
ghost use Rattle.larch_main_files.specs.Examples.{exchanging, trimmed_of_one, twofold, with_model};
ghost use Rattle.larch_main_files.specs.Migrate.{MayMigrate};
ghost use Rattle.larch_main_files.specs.Questions.{MayAnswer};
ghost use Rattle.larch_main_status.specs.declared.status.Status.TheVariants.{Good, Malformed, NoFile, Remains, Size};

/// A check, and what a trait claims.
pub fn a_trait_is_told()
    ensures check { MayAnswer Check (one_file ∷ []) one_folder
        (codes "trait One\n" ++ (codes "total 1 traits, 0 errors, 0 proved, 0 suspended, 0 refused\n"
        ++ codes "end\n")) Good }
    ensures obligations { MayAnswer Obligations (one_file ∷ []) one_folder
        (codes "trait One\n" ++ (codes "op c: -> S\n" ++ (codes "imply.1 c == c\n" ++ codes "end\n"))) Good }
{}

/// A trait that has another name than its file.
pub fn a_wrong_trait_is_told()
    ensures check { MayAnswer Check (codes "Two.lsl" ∷ []) ((codes "Two.lsl", codes "One: trait") ∷ [])
        (codes "trait Two error 1:1 TRAIT-NAME\n"
        ++ (codes "total 1 traits, 1 errors, 0 proved, 0 suspended, 0 refused\n" ++ codes "end\n")) Remains }
    ensures obligations { MayAnswer Obligations (codes "Two.lsl" ∷ []) ((codes "Two.lsl", codes "One: trait") ∷ [])
        (codes "trait Two error 1:1 TRAIT-NAME\n" ++ codes "end\n") Remains }
{}

/// A certificate is accepted, refused with a number, or none; and there may be no such duty, which comes later.
pub fn certificates_are_told()
    ensures accepted { MayAnswer (asked_of_one (Imply 1)) (one_file ∷ []) (with_certificate (codes "1 refl #1\n"))
        (codes "accepted\n") Good }
    ensures refused { MayAnswer (asked_of_one (Imply 1)) (one_file ∷ []) (with_certificate (codes "1 refl #1\n2 sym 7\n"))
        (codes "refused 2\n") Remains }
    ensures without_lines { MayAnswer (asked_of_one (Imply 1)) (one_file ∷ []) (with_certificate [])
        (codes "refused 1\n") Remains }
    ensures malformed { MayAnswer (asked_of_one (Imply 2)) (one_file ∷ []) (with_certificate (codes "1 refl\n"))
        (codes "malformed at line 2\n") Malformed }
    ensures no_duty { MayAnswer (asked_of_one (Imply 2)) (one_file ∷ []) (with_certificate (codes "1 refl #1\n"))
        (codes "no duty\n") Remains }
{}

/// Of an accepted certificate the needed lines are left, in the second version; to another what `verify` answers is
/// answered.
pub fn certificates_are_trimmed()
    ensures idle { MayAnswer (trimmed_of_one (Imply 1)) (one_file ∷ []) (with_certificate (codes "1 refl true\n2 refl #1\n"))
        (codes "certificate 2\n" ++ codes "refl term=#1\n") Good }
    ensures again { MayAnswer (trimmed_of_one (Imply 1)) (one_file ∷ [])
        ((codes "c.cert", codes "certificate 2\n" ++ codes "refl term=#1\n") ∷ one_folder)
        (codes "certificate 2\n" ++ codes "refl term=#1\n") Good }
    ensures refused { MayAnswer (trimmed_of_one (Imply 1)) (one_file ∷ [])
        (with_certificate (codes "1 refl #1\n2 sym 7\n")) (codes "refused 2\n") Remains }
    ensures malformed { MayAnswer (trimmed_of_one (Imply 2)) (one_file ∷ []) (with_certificate (codes "1 refl\n"))
        (codes "malformed at line 2\n") Malformed }
    ensures no_duty { MayAnswer (trimmed_of_one (Imply 2)) (one_file ∷ []) (with_certificate (codes "1 refl #1\n"))
        (codes "no duty\n") Remains }
{}

/// A claim holds in a model, or fails in it; a text is no model from a line on; that there is no such trait comes
/// first.
pub fn models_are_told()
    ensures holds { MayAnswer (model_of (codes "One")) (one_file ∷ []) (with_model one_folder (codes "op 1 0\n"))
        (codes "model\n" ++ (codes "imply.1 holds\n" ++ codes "end\n")) Good }
    ensures fails { MayAnswer (model_of (codes "Wk")) (codes "Wk.lsl" ∷ [])
        (with_model differing (codes "sort S 2\nop 1 0\nop 2 1\n"))
        (codes "model\n" ++ (codes "imply.1 fails\n" ++ codes "end\n")) Remains }
    ensures malformed { MayAnswer (model_of (codes "One")) (one_file ∷ []) (with_model one_folder (codes "op 1 1\n"))
        (codes "malformed at line 2\n") Malformed }
    ensures no_trait { MayAnswer (model_of (codes "Two")) (one_file ∷ []) (with_model one_folder [])
        (codes "no trait\n") Remains }
{}

/// A certificate is written in the second version, whichever version it has; a text may be none.
pub fn certificates_are_migrated()
    ensures first { MayMigrate (codes "c.cert") (with_certificate (codes "1 refl #1\n2 sym 1\n"))
        (codes "certificate 2\n" ++ codes "refl term=#1\nsym line=1\n") Good }
    ensures second { MayMigrate (codes "c.cert")
        ((codes "c.cert", codes "certificate 2\n" ++ codes "refl term=#1\nsym line=1\n") ∷ [])
        (codes "certificate 2\n" ++ codes "refl term=#1\nsym line=1\n") Good }
    ensures malformed { MayMigrate (codes "c.cert") (with_certificate (codes "1 refl\n"))
        (codes "malformed at line 2\n") Malformed }
    ensures absent { MayMigrate (codes "c.cert") one_folder (codes "no file c.cert\n") NoFile }
{}

/// Rules decide the equations of a trait; an equation may not be oriented; that there is no such trait comes first.
pub fn rules_are_told()
    ensures complete { MayAnswer (Complete (codes "Cm") 1000) (codes "Cm.lsl" ∷ []) twofold
        (codes "complete 2 rules\n" ++ (codes "R1 f(f(x)) -> g(x)\n" ++ (codes "R2 f(g(v1)) -> g(f(v1))\n"
        ++ codes "end\n"))) Good }
    ensures unoriented { MayAnswer (Complete (codes "Com") 1000) (codes "Com.lsl" ∷ []) exchanging
        (codes "unoriented x + y == y + x\n") Remains }
    ensures no_trait { MayAnswer (Complete (codes "Two") 1000) (one_file ∷ []) one_folder
        (codes "no trait\n") Remains }
{}

/// A file isn't there, or has too many bytes. The certificate comes first.
pub fn files_that_lack_are_told()
    ensures certificate { MayAnswer (asked_of_one (Imply 1)) (one_file ∷ []) [] (codes "no file c.cert\n") NoFile }
    ensures file { MayAnswer (asked_of_one (Imply 1)) (codes "Two.lsl" ∷ one_file ∷ []) (with_certificate [])
        (codes "no file Two.lsl\n") NoFile }
    ensures too_large { (folder : FileMap) (name bytes : List ℕ) (names : List (List ℕ))
        → file_of folder name ≡ Some bytes → MAX_FILE_BYTES < length bytes
        → MayAnswer Check (name ∷ names) folder (codes "too large\n") Size }
{}
