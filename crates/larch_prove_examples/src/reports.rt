//! What reports say, and how much of them is done again. No function here does anything.
//!
//! Written by `tools/make/replay_examples.py`; the traits and duties are in `specs/Worked.antt`.
ghost use Rattle.std.specs.Prelude.{◌≡◌, [], ◌∷◌, codes};
ghost use Rattle.larch_base.specs.declared.code.Code.TheVariants as refusal;
ghost use Rattle.larch_base.specs.declared.label.Label.TheVariants.{Convert, Imply};
ghost use Rattle.larch_term.specs.Tree.{var};
ghost use Rattle.larch_term.specs.BuiltIn.{built_in};
ghost use Rattle.larch_term.specs.declared.built_in.BuiltIn.TheVariants.{Equal};
ghost use Rattle.larch_calculus.specs.Formula.{constant, apply_one, apply_two};
ghost use Rattle.larch_prove_meaning.specs.Redo.{redo, trait_replayed};
ghost use Rattle.larch_prove_meaning.specs.Reports.{DutyProved, DutyRefused, DutySuspended, ScriptFault, trait_lines};
ghost use Rattle.larch_prove_examples.specs.Worked as worked;

/// Sums are proved; behind an edit of the second block the third has no lemma.
pub fn a_session_of_two_reports()
    ensures first { trait_lines 1000 worked.numbers_script_1 worked.numbers_claims
        ≡ DutyProved (Imply 1) ∷ DutyProved (Imply 2) ∷ DutyProved (Imply 3) ∷ [] }
    ensures second { trait_lines 1000 worked.numbers_script_2 worked.numbers_claims
        ≡ DutyProved (Imply 1) ∷
        DutySuspended
        (Imply 2)
        2
        (apply_two
        (built_in Equal (codes "N"))
        (apply_two
        worked.numbers_plus
        (apply_one worked.numbers_s (constant worked.numbers_nought))
        (var (codes "y") (codes "N")))
        (apply_one worked.numbers_s (var (codes "y") (codes "N")))) ∷
        DutyRefused (Imply 3) 10 refusal.Open ∷
        [] }
{}

/// An opening is refused at the line of its block, wherever that is; without one at line 0.
pub fn refused_openings()
    ensures block { trait_lines 1000 worked.three_script_1 worked.three_claims
        ≡ DutyRefused (Imply 1) 2 refusal.Limit ∷ [] }
    ensures moved { trait_lines 1000 worked.three_script_2 worked.three_claims
        ≡ DutyRefused (Imply 1) 3 refusal.Limit ∷ [] }
    ensures no_block { trait_lines 1000 worked.doubles_12_script_1 worked.doubles_12_claims
        ≡ DutyRefused (Imply 1) 0 refusal.Size ∷ [] }
{}

/// A refused preamble refuses each duty, at its own line.
pub fn refused_preambles()
    ensures { trait_lines 1000 worked.numbers_script_3 worked.numbers_claims
        ≡ DutyRefused (Imply 1) 3 refusal.Command ∷
        DutyRefused (Imply 2) 3 refusal.Command ∷
        DutyRefused (Imply 3) 3 refusal.Command ∷
        [] }
{}

/// Behind the duties come the blocks that aren't replayed, in order.
pub fn blocks_of_no_duty()
    ensures { trait_lines 1000 worked.truths_script_1 worked.truths_claims
        ≡ DutyRefused (Imply 1) 4 refusal.NoReading ∷
        ScriptFault 1 refusal.UnknownDuty ∷
        ScriptFault 5 refusal.DutyTwice ∷
        ScriptFault 6 refusal.UnknownDuty ∷
        [] }
{}

/// A conversion serves those of its own clause alone.
pub fn lemmas_of_conversions()
    ensures another_clause { trait_lines 1000 worked.doubled_script_1 worked.doubled_claims
        ≡ DutyProved (Convert 1) ∷ DutyRefused (Convert 2) 4 refusal.Fact ∷ [] }
    ensures one_clause { trait_lines 1000 worked.both_script_1 worked.both_claims
        ≡ DutyProved (Convert 1) ∷
        DutySuspended
        (Convert 2)
        1
        (apply_two
        (built_in Equal (codes "N"))
        (apply_one worked.both_t (var (codes "x1") (codes "N")))
        (apply_one worked.both_t_copy (var (codes "x1") (codes "N")))) ∷
        [] }
{}

/// How many steps a report takes behind another one.
pub fn what_is_done_again()
    ensures nothing_before { redo
        []
        (trait_replayed 1000 (codes "Numbers") worked.numbers_script_1 worked.numbers_claims)
        ≡ 10 }
    ensures nothing_changed { redo
        (trait_replayed 1000 (codes "Numbers") worked.numbers_script_1 worked.numbers_claims)
        (trait_replayed 1000 (codes "Numbers") worked.numbers_script_1 worked.numbers_claims)
        ≡ 0 }
    ensures edited { redo
        (trait_replayed 1000 (codes "Numbers") worked.numbers_script_1 worked.numbers_claims)
        (trait_replayed 1000 (codes "Numbers") worked.numbers_script_2 worked.numbers_claims)
        ≡ 7 }
    ensures edited_back { redo
        (trait_replayed 1000 (codes "Numbers") worked.numbers_script_2 worked.numbers_claims)
        (trait_replayed 1000 (codes "Numbers") worked.numbers_script_1 worked.numbers_claims)
        ≡ 7 }
    ensures moved { redo
        (trait_replayed 1000 (codes "Three") worked.three_script_1 worked.three_claims)
        (trait_replayed 1000 (codes "Three") worked.three_script_2 worked.three_claims)
        ≡ 0 }
    ensures other_preamble { redo
        (trait_replayed 1000 (codes "Three") worked.three_script_1 worked.three_claims)
        (trait_replayed 1000 (codes "Three") worked.three_script_3 worked.three_claims)
        ≡ 1 }
    ensures cut { redo
        (trait_replayed 1000 (codes "Numbers") worked.numbers_script_1 worked.numbers_claims)
        (trait_replayed 1000 (codes "Numbers") worked.numbers_script_4 worked.numbers_claims)
        ≡ 0 }
    ensures last_command { redo
        (trait_replayed 1000 (codes "Numbers") worked.numbers_script_1 worked.numbers_claims)
        (trait_replayed 1000 (codes "Numbers") worked.numbers_script_5 worked.numbers_claims)
        ≡ 2 }
{}
