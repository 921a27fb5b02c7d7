//! Reports worked out, as the definitions compute them. No function here does anything.
ghost use Rattle.std.specs.Prelude.{◌≡◌, ◌++◌, [], ◌∷◌, codes, true, false};
ghost use Rattle.larch_base.specs.declared.code.Code.TheVariants.{Fact, Syntax, UnknownDuty};
ghost use Rattle.larch_base.specs.declared.label.Label.TheVariants.{Assume, Convert, Imply};
ghost use Rattle.larch_report.specs.Counts.{counts_of, is_good};
ghost use Rattle.larch_report.specs.Text.{report_text};
ghost use Rattle.larch_report.specs.declared.line.DutyOutcome.TheVariants.{Proved, Refused, Suspended};
ghost use Rattle.larch_report.specs.declared.line.ReportLine.TheVariants.{Duty, Right, Script, Stray, Wrong};
ghost use Rattle.larch_term.specs.Tree.{var};

/// A report on nothing.
pub fn nothing_is_good()
    ensures text { report_text [] ≡ codes "total 0 traits, 0 errors, 0 proved, 0 suspended, 0 refused\n" ++ codes "end\n" }
    ensures good { is_good (counts_of []) ≡ true }
{}

/// A trait that is right, and one that is wrong.
pub fn a_wrong_trait_is_an_error()
    ensures text { report_text (Right (codes "One")
        ∷ Wrong (codes "Two") (record { pos = record { line = 3; column = 7 }; code = Syntax }) ∷ [])
        ≡ codes "trait One\n" ++ (codes "trait Two error 3:7 SYNTAX\n"
        ++ (codes "total 2 traits, 1 errors, 0 proved, 0 suspended, 0 refused\n" ++ codes "end\n")) }
    ensures good { is_good (counts_of (Right (codes "One")
        ∷ Wrong (codes "Two") (record { pos = record { line = 3; column = 7 }; code = Syntax }) ∷ [])) ≡ false }
{}

/// Each kind of line of duties and scripts, and what they count.
pub fn duties_and_scripts_are_told()
    ensures { report_text (Right (codes "One") ∷ Duty (Assume 1) Proved
        ∷ Duty (Imply 1) (Suspended 2 (var (codes "x") (codes "Bool"))) ∷ Duty (Convert 3) (Refused 7 Fact)
        ∷ Script 9 UnknownDuty ∷ Stray (codes "Two") ∷ [])
        ≡ codes "trait One\n" ++ (codes "assume.1 proved\n" ++ (codes "imply.1 suspended goals 2: x\n"
        ++ (codes "convert.3 refused 7 FACT\n" ++ (codes "script 9 UNKNOWN-DUTY\n"
        ++ (codes "script Two without trait\n"
        ++ (codes "total 1 traits, 2 errors, 1 proved, 1 suspended, 1 refused\n" ++ codes "end\n")))))) }
{}

/// A duty that is left, or refused, is no error, and still the report isn't good; where all are proved it is.
pub fn what_is_left_is_not_good()
    ensures left { is_good (counts_of (Right (codes "One")
        ∷ Duty (Imply 1) (Suspended 1 (var (codes "x") (codes "Bool"))) ∷ [])) ≡ false }
    ensures refused { is_good (counts_of (Right (codes "One") ∷ Duty (Imply 1) (Refused 0 Fact) ∷ [])) ≡ false }
    ensures proved { is_good (counts_of (Right (codes "One") ∷ Duty (Imply 1) Proved ∷ [])) ≡ true }
{}
