//! Reports worked out from the bytes of files, as the definitions compute them. No function here does anything.
ghost use Rattle.std.specs.Prelude.{◌≡◌, ◌++◌, [], ◌∷◌, codes};
ghost use Rattle.larch_session_meaning.specs.Examples.{both, both_by, report_on, script, sums_by, trait_file};

/// Without a script a duty's goal is open; with one it is proved, or refused at the line of a command.
pub fn a_trait_with_a_script()
    ensures nothing { report_on []
        ≡ codes "total 0 traits, 0 errors, 0 proved, 0 suspended, 0 refused\n" ++ codes "end\n" }
    ensures without { report_on (both ∷ [])
        ≡ codes "trait Cs\n" ++ (codes "imply.1 suspended goals 1: f(b)\n"
        ++ (codes "total 1 traits, 0 errors, 0 proved, 1 suspended, 0 refused\n" ++ codes "end\n")) }
    ensures empty { report_on (both_by []) ≡ report_on (both ∷ []) }
    ensures proved { report_on (both_by (codes "duty imply.1\n  resume by cases b\nqed\n"))
        ≡ codes "trait Cs\n" ++ (codes "imply.1 proved\n"
        ++ (codes "total 1 traits, 0 errors, 1 proved, 0 suspended, 0 refused\n" ++ codes "end\n")) }
    ensures refused { report_on (both_by (codes "duty imply.1\n\n  resume by =>\nqed\n"))
        ≡ codes "trait Cs\n" ++ (codes "imply.1 refused 3 SHAPE\n"
        ++ (codes "total 1 traits, 0 errors, 0 proved, 0 suspended, 1 refused\n" ++ codes "end\n")) }
{}

/// A duty that is proved is a lemma of later ones, wherever its block stands; one that isn't is none.
pub fn earlier_duties_are_lemmas()
    ensures proved { report_on (sums_by (codes "duty imply.1\nresume by induction on x\n"))
        ≡ codes "trait Sum\n" ++ (codes "imply.1 proved\n" ++ (codes "imply.2 proved\n"
        ++ (codes "total 1 traits, 0 errors, 2 proved, 0 suspended, 0 refused\n" ++ codes "end\n"))) }
    ensures suspended { report_on (sums_by (codes "duty imply.2\ninstantiate x by s(x) in L1\nqed\nduty imply.1\n"))
        ≡ codes "trait Sum\n" ++ (codes "imply.1 suspended goals 1: (0 + x) = x\n"
        ++ (codes "imply.2 refused 2 FACT\n"
        ++ (codes "total 1 traits, 0 errors, 0 proved, 1 suspended, 1 refused\n" ++ codes "end\n"))) }
{}

/// What the preamble sets holds for each block; a refused preamble refuses each duty, at its own line.
pub fn limits_are_set_in_preambles()
    ensures limit { report_on (sums_by (codes "set rewriting-limit 1\nduty imply.1\nresume by induction on x\n"))
        ≡ codes "trait Sum\n" ++ (codes "imply.1 refused 3 LIMIT\n"
        ++ (codes "imply.2 suspended goals 1: s(0 + x) = s(x)\n"
        ++ (codes "total 1 traits, 0 errors, 0 proved, 1 suspended, 1 refused\n" ++ codes "end\n"))) }
    ensures refused { report_on (sums_by (codes "declare variable z: N\nqed\nduty imply.1\n"))
        ≡ codes "trait Sum\n" ++ (codes "imply.1 refused 2 COMMAND\n" ++ (codes "imply.2 refused 2 COMMAND\n"
        ++ (codes "total 1 traits, 0 errors, 0 proved, 0 suspended, 2 refused\n" ++ codes "end\n"))) }
{}

/// Blocks of no duty, and further blocks of one duty, are told behind the duties.
pub fn blocks_are_named_by_duties()
    ensures { report_on (both_by (codes "duty imply.2\nqed\nduty imply.1\nresume by cases b\nduty imply.1\nqed\n"
        ++ codes "duty convert.1\n"))
        ≡ codes "trait Cs\n" ++ (codes "imply.1 proved\n" ++ (codes "script 1 UNKNOWN-DUTY\n"
        ++ (codes "script 5 DUTY-TWICE\n" ++ (codes "script 7 UNKNOWN-DUTY\n"
        ++ (codes "total 1 traits, 3 errors, 1 proved, 0 suspended, 0 refused\n" ++ codes "end\n"))))) }
{}

/// The script of a trait that is wrong isn't looked at.
pub fn what_is_wrong_has_no_script()
    ensures { report_on (script (codes "Cs") (codes "duty imply.9\n") ∷ trait_file (codes "Cs") (codes "Ds: trait") ∷ [])
        ≡ codes "trait Cs error 1:1 TRAIT-NAME\n"
        ++ (codes "total 1 traits, 1 errors, 0 proved, 0 suspended, 0 refused\n" ++ codes "end\n") }
{}

/// Scripts without a trait come last.
pub fn scripts_without_a_trait()
    ensures { report_on (script (codes "Bs") (codes "qed") ∷ both_by (codes "duty imply.1\nresume by cases b\n")
        ++ script (codes "Ds") [] ∷ [])
        ≡ codes "trait Cs\n" ++ (codes "imply.1 proved\n" ++ (codes "script Bs without trait\n"
        ++ (codes "script Ds without trait\n"
        ++ (codes "total 1 traits, 2 errors, 1 proved, 0 suspended, 0 refused\n" ++ codes "end\n")))) }
{}
