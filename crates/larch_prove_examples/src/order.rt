//! What comes first of several refusals, and what a preamble may have. No function here does anything.
//!
//! Written by `tools/make/replay_examples.py`; the traits and duties are in `specs/Worked.antt`.
ghost use Rattle.std.specs.Prelude.{◌≡◌, true, false, [], ◌∷◌, ◌++◌, codes};
ghost use Rattle.std.specs.List.{repeat};
ghost use Rattle.larch_base.specs.declared.code.Code.TheVariants as refusal;
ghost use Rattle.larch_script_commands.specs.Written.{by_name, equal, form, lone, said};
ghost use Rattle.larch_script_commands.specs.Written.{word};
ghost use Rattle.larch_script_commands.specs.declared.command.CommandKind.TheVariants as command;
ghost use Rattle.larch_term.specs.Tree.{var};
ghost use Rattle.larch_term.specs.BuiltIn.{built_in};
ghost use Rattle.larch_term.specs.declared.built_in.BuiltIn.TheVariants.{Equal};
ghost use Rattle.larch_calculus.specs.Formula.{constant, apply_one, apply_two};
ghost use Rattle.larch_prove_meaning.specs.Replays.{replay, Suspended, Refused, InPreamble, AtOpening};
ghost use Rattle.larch_prove_meaning.specs.Replays.{AtCommand};
ghost use Rattle.larch_prove_examples.specs.Worked as worked;

/// Of two refusals of a command this one is told.
pub fn what_comes_first()
    ensures line_before_mark { replay
        worked.numbers_imply_1
        1000
        (command.BoxChecking true ∷ [])
        (command.Induction (word (codes "x")) ∷ command.Bad refusal.Command ∷ [])
        ≡ Refused (record { place = AtCommand 2; code = refusal.Command }) }
    ensures line_before_end { replay
        worked.numbers_imply_1
        1000
        []
        (command.Induction (word (codes "x")) ∷ command.Bad refusal.Lex ∷ [])
        ≡ Refused (record { place = AtCommand 2; code = refusal.Lex }) }
    ensures end_before_setting { replay
        worked.numbers_imply_1
        1000
        []
        (command.Induction (word (codes "x")) ∷ command.Limit 5 ∷ [])
        ≡ Refused (record { place = AtCommand 2; code = refusal.Done }) }
    ensures end_before_unchecking { replay
        worked.numbers_imply_1
        1000
        []
        (command.Induction (word (codes "x")) ∷ command.BoxChecking false ∷ [])
        ≡ Refused (record { place = AtCommand 2; code = refusal.Done }) }
    ensures end_before_reading { replay
        worked.numbers_imply_1
        1000
        []
        (command.Induction (word (codes "x")) ∷ command.Cases (lone (said (codes "undefined") [])) ∷ [])
        ≡ Refused (record { place = AtCommand 2; code = refusal.Done }) }
    ensures mark_before_reading { replay
        worked.tables_imply_1
        1000
        (command.BoxChecking true ∷ [])
        (command.Cases (lone (said (codes "__ \\in __") (said (codes "i") [] ∷ said (codes "t") [] ∷ []))) ∷
        command.Cases (lone (said (codes "undefined") [])) ∷
        [])
        ≡ Refused (record { place = AtCommand 2; code = refusal.Mark }) }
    ensures mark_before_open { replay
        worked.tables_imply_1
        1000
        (command.BoxChecking true ∷ [])
        (command.Cases (lone (said (codes "__ \\in __") (said (codes "i") [] ∷ said (codes "t") [] ∷ []))) ∷
        command.Qed ∷
        [])
        ≡ Refused (record { place = AtCommand 2; code = refusal.Mark }) }
    ensures unchecking_where_marks_wait { replay
        worked.tables_imply_1
        1000
        (command.BoxChecking true ∷ [])
        (command.Induction (word (codes "t")) ∷ command.BoxChecking false ∷ [])
        ≡ Refused (record { place = AtCommand 2; code = refusal.Done }) }
    ensures limit_before_size { replay worked.doubles_12_imply_1 1000 (command.Limit 11 ∷ []) []
        ≡ Refused (record { place = AtOpening; code = refusal.Limit }) }
{}

/// The 1,001st command of a block is SIZE, before a mark that is out of place.
pub fn at_most_a_thousand_commands()
    ensures last { replay worked.truths_imply_1 1000 [] (repeat 999 (command.Limit 7 ∷ []) ++ (command.Limit 8 ∷ []))
        ≡ Suspended 1 (apply_one worked.truths_f (var (codes "b") (codes "Bool"))) }
    ensures one_more { replay
        worked.truths_imply_1
        1000
        (command.BoxChecking true ∷ [])
        (repeat 1000 (command.Limit 7 ∷ []) ++ (command.Mark true ∷ []))
        ≡ Refused (record { place = AtCommand 1001; code = refusal.Size }) }
{}

/// Only declarations, settings and registrations stand in a preamble.
pub fn preambles()
    ensures declared { replay
        worked.numbers_imply_1
        1000
        (command.Declare (word (codes "k") ∷ []) (word (codes "N")) ∷ [])
        (command.Prove
        (equal (said (codes "__ + __") (said (codes "k") [] ∷ said (codes "0") [] ∷ [])) (said (codes "k") [])) ∷
        [])
        ≡ Suspended
        1
        (apply_two
        (built_in Equal (codes "N"))
        (apply_two worked.numbers_plus (constant worked.numbers_nought) (var (codes "x") (codes "N")))
        (var (codes "x") (codes "N"))) }
    ensures goal_comes_first { replay
        worked.numbers_imply_1
        1000
        (command.Declare (word (codes "x") ∷ []) (word (codes "Bool")) ∷ [])
        (command.Declare (word (codes "x") ∷ []) (word (codes "Bool")) ∷ [])
        ≡ Refused (record { place = AtCommand 1; code = refusal.Variable }) }
    ensures end { replay worked.numbers_imply_1 1000 (command.Qed ∷ []) []
        ≡ Refused (record { place = InPreamble 1; code = refusal.Command }) }
    ensures formula { replay
        worked.numbers_imply_1
        1000
        (command.Limit 5 ∷ command.Prove (equal (said (codes "0") []) (said (codes "0") [])) ∷ [])
        []
        ≡ Refused (record { place = InPreamble 2; code = refusal.Command }) }
    ensures mark { replay worked.numbers_imply_1 1000 (command.BoxChecking true ∷ command.Mark true ∷ []) []
        ≡ Refused (record { place = InPreamble 2; code = refusal.Command }) }
    ensures line { replay worked.numbers_imply_1 1000 (command.Bad refusal.Command ∷ []) []
        ≡ Refused (record { place = InPreamble 1; code = refusal.Command }) }
    ensures bytes { replay worked.numbers_imply_1 1000 (command.Bad refusal.Lex ∷ []) []
        ≡ Refused (record { place = InPreamble 1; code = refusal.Lex }) }
    ensures sort { replay
        worked.numbers_imply_1
        1000
        (command.Declare (word (codes "k") ∷ []) (word (codes "N")) ∷
        command.Declare (word (codes "k") ∷ []) (word (codes "Nowhere")) ∷
        [])
        []
        ≡ Refused (record { place = InPreamble 2; code = refusal.UnknownSort }) }
    ensures operator { replay
        worked.numbers_imply_1
        1000
        (command.Height (by_name (form (codes "zero") true 0)) (by_name (form (codes "s") true 0)) ∷ [])
        []
        ≡ Refused (record { place = InPreamble 1; code = refusal.Operator }) }
{}
