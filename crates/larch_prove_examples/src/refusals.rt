//! What single commands do, and when they are refused. No function here does anything.
//!
//! Written by `tools/make/replay_examples.py`; the traits and duties are in `specs/Worked.antt`.
ghost use Rattle.std.specs.Prelude.{◌≡◌, true, [], ◌∷◌, codes};
ghost use Rattle.larch_base.specs.declared.code.Code.TheVariants as refusal;
ghost use Rattle.larch_base.specs.declared.fact_name.FactLetter.TheVariants.{Axiom, Derived, Lemma};
ghost use Rattle.larch_base.specs.declared.way.Way.TheVariants.{LeftToRight, RightToLeft, Multiset};
ghost use Rattle.larch_script_commands.specs.Written.{by_name, by_signature, equal, form, instead, lone, said, said_of};
ghost use Rattle.larch_script_commands.specs.Written.{word};
ghost use Rattle.larch_script_commands.specs.declared.command.CommandKind.TheVariants as command;
ghost use Rattle.larch_term.specs.Tree.{var};
ghost use Rattle.larch_term.specs.BuiltIn.{built_in, bool_sort};
ghost use Rattle.larch_term.specs.declared.built_in.BuiltIn.TheVariants.{Not, Equal};
ghost use Rattle.larch_calculus.specs.Formula.{constant, apply_one, apply_two};
ghost use Rattle.larch_prove_meaning.specs.Facts.{whole_name};
ghost use Rattle.larch_prove_meaning.specs.Replays.{replay, Proved, Suspended, Refused};
ghost use Rattle.larch_prove_meaning.specs.Replays.{AtCommand};
ghost use Rattle.larch_prove_examples.specs.Worked as worked;

/// By default a fact goes from `g` to `f`; a height of `f` above `g` turns it.
pub fn registered_heights()
    ensures default { replay worked.turns_imply_1 1000 [] []
        ≡ Suspended 1 (apply_one worked.turns_p (apply_one worked.turns_f (var (codes "x") (codes "S")))) }
    ensures above { replay
        worked.turns_imply_1
        1000
        (command.Height (by_name (form (codes "f") true 0)) (by_name (form (codes "g") true 0)) ∷ [])
        []
        ≡ Suspended 1 (apply_one worked.turns_p (apply_one worked.turns_g (var (codes "x") (codes "S")))) }
    ensures already_above { replay
        worked.turns_imply_1
        1000
        (command.Height (by_name (form (codes "g") true 0)) (by_name (form (codes "f") true 0)) ∷ [])
        []
        ≡ Suspended 1 (apply_one worked.turns_p (apply_one worked.turns_f (var (codes "x") (codes "S")))) }
    ensures behind_it { replay
        worked.turns_imply_1
        1000
        []
        (command.Height (by_name (form (codes "f") true 0)) (by_name (form (codes "g") true 0)) ∷
        command.Normalize (whole_name Axiom 1) ∷
        [])
        ≡ Suspended 1 (apply_one worked.turns_p (apply_one worked.turns_g (var (codes "x") (codes "S")))) }
{}

/// How an operator compares its arguments decides which side of a fact is the greater one.
pub fn registered_statuses()
    ensures default { replay worked.turns_imply_2 1000 [] []
        ≡ Suspended
        1
        (apply_one
        worked.turns_p
        (apply_two
        worked.turns_h
        (var (codes "x") (codes "S"))
        (apply_one worked.turns_s (apply_one worked.turns_s (var (codes "y") (codes "S")))))) }
    ensures left_to_right { replay
        worked.turns_imply_2
        1000
        (command.Status LeftToRight (by_name (form (codes "h") true 0)) ∷ [])
        []
        ≡ Suspended
        1
        (apply_one
        worked.turns_p
        (apply_two
        worked.turns_h
        (var (codes "x") (codes "S"))
        (apply_one worked.turns_s (apply_one worked.turns_s (var (codes "y") (codes "S")))))) }
    ensures right_to_left { replay
        worked.turns_imply_2
        1000
        (command.Status RightToLeft (by_name (form (codes "h") true 0)) ∷ [])
        []
        ≡ Suspended
        1
        (apply_one
        worked.turns_p
        (apply_two
        worked.turns_h
        (apply_one worked.turns_s (apply_one worked.turns_s (var (codes "x") (codes "S"))))
        (var (codes "y") (codes "S")))) }
    ensures multiset { replay
        worked.turns_imply_2
        1000
        (command.Status
        Multiset
        (by_signature (form (codes "h") true 0) (word (codes "S") ∷ word (codes "S") ∷ []) (word (codes "S"))) ∷
        [])
        []
        ≡ Suspended
        1
        (apply_one
        worked.turns_p
        (apply_two
        worked.turns_h
        (apply_one worked.turns_s (var (codes "x") (codes "S")))
        (apply_one worked.turns_s (var (codes "y") (codes "S"))))) }
{}

/// References name one operator that isn't built in.
pub fn what_is_no_operator()
    ensures nothing { replay
        worked.turns_imply_1
        1000
        []
        (command.Height (by_name (form (codes "k") true 0)) (by_name (form (codes "f") true 0)) ∷ [])
        ≡ Refused (record { place = AtCommand 1; code = refusal.Operator }) }
    ensures nothing_below { replay
        worked.turns_imply_1
        1000
        []
        (command.Height (by_name (form (codes "f") true 0)) (by_name (form (codes "k") true 0)) ∷ [])
        ≡ Refused (record { place = AtCommand 1; code = refusal.Operator }) }
    ensures built_in { replay
        worked.turns_imply_1
        1000
        []
        (command.Height (by_name (form (codes "true") true 0)) (by_name (form (codes "f") true 0)) ∷ [])
        ≡ Refused (record { place = AtCommand 1; code = refusal.Operator }) }
    ensures other_sorts { replay
        worked.turns_imply_2
        1000
        []
        (command.Status
        Multiset
        (by_signature (form (codes "h") true 0) (word (codes "S") ∷ []) (word (codes "S"))) ∷
        [])
        ≡ Refused (record { place = AtCommand 1; code = refusal.Operator }) }
    ensures two { replay
        worked.empties_imply_1
        1000
        []
        (command.Status Multiset (by_name (form (codes "card") true 0)) ∷ [])
        ≡ Refused (record { place = AtCommand 1; code = refusal.Operator }) }
    ensures one_of_two { replay
        worked.empties_imply_1
        1000
        []
        (command.Status
        Multiset
        (by_signature (form (codes "card") true 0) (word (codes "Set") ∷ []) (word (codes "N"))) ∷
        [])
        ≡ Suspended
        1
        (apply_two
        (built_in Equal (codes "N"))
        (apply_one worked.empties_card (var (codes "b") (codes "Bag")))
        (var (codes "n") (codes "N"))) }
{}

/// A name has one sort in scope, which exists, and is no constant of the block.
pub fn what_is_not_declared()
    ensures unknown_sort { replay
        worked.numbers_imply_1
        1000
        []
        (command.Declare (word (codes "k") ∷ []) (word (codes "Nowhere")) ∷ [])
        ≡ Refused (record { place = AtCommand 1; code = refusal.UnknownSort }) }
    ensures other_sort { replay
        worked.numbers_imply_1
        1000
        []
        (command.Declare (word (codes "x") ∷ []) (word (codes "Bool")) ∷ [])
        ≡ Refused (record { place = AtCommand 1; code = refusal.Variable }) }
    ensures sort_comes_first { replay
        worked.numbers_imply_1
        1000
        []
        (command.Declare (word (codes "x") ∷ []) (word (codes "Nowhere")) ∷ [])
        ≡ Refused (record { place = AtCommand 1; code = refusal.UnknownSort }) }
    ensures declared_before { replay
        worked.numbers_imply_1
        1000
        []
        (command.Declare (word (codes "k") ∷ []) (word (codes "N")) ∷
        command.Declare (word (codes "k") ∷ []) (word (codes "Bool")) ∷
        [])
        ≡ Refused (record { place = AtCommand 2; code = refusal.Variable }) }
    ensures one_of_several { replay
        worked.numbers_imply_1
        1000
        []
        (command.Declare (word (codes "k") ∷ word (codes "x") ∷ []) (word (codes "Bool")) ∷ [])
        ≡ Refused (record { place = AtCommand 1; code = refusal.Variable }) }
    ensures constant { replay
        worked.numbers_imply_2
        1000
        []
        (command.Induction (word (codes "x")) ∷ command.Declare (word (codes "xc") ∷ []) (word (codes "N")) ∷ [])
        ≡ Refused (record { place = AtCommand 2; code = refusal.Variable }) }
{}

/// Terms of commands are read by the theory, the scope and the constants of the block.
pub fn what_has_no_reading()
    ensures undeclared { replay
        worked.numbers_imply_1
        1000
        []
        (command.Prove
        (equal (said (codes "__ + __") (said (codes "k") [] ∷ said (codes "0") [] ∷ [])) (said (codes "k") [])) ∷
        [])
        ≡ Refused (record { place = AtCommand 1; code = refusal.NoReading }) }
    ensures several { replay
        worked.empties_imply_1
        1000
        []
        (command.Prove (lone (said (codes "__ = __") (said (codes "empty") [] ∷ said (codes "empty") [] ∷ []))) ∷
        [])
        ≡ Refused (record { place = AtCommand 1; code = refusal.Ambiguous }) }
    ensures qualified { replay
        worked.empties_imply_1
        1000
        []
        (command.Prove
        (lone
        (said
        (codes "__ = __")
        (said_of (said (codes "empty") []) (codes "Bag") ∷ said (codes "empty") [] ∷ []))) ∷
        [])
        ≡ Suspended
        1
        (apply_two
        (built_in Equal (codes "N"))
        (apply_one worked.empties_card (var (codes "b") (codes "Bag")))
        (var (codes "n") (codes "N"))) }
    ensures unknown_sort { replay
        worked.empties_imply_1
        1000
        []
        (command.Prove
        (lone
        (said
        (codes "__ = __")
        (said_of (said (codes "empty") []) (codes "Nowhere") ∷ said (codes "empty") [] ∷ []))) ∷
        [])
        ≡ Refused (record { place = AtCommand 1; code = refusal.UnknownSort }) }
    ensures case { replay
        worked.empties_imply_1
        1000
        []
        (command.Cases
        (lone
        (said
        (codes "__ = __")
        (said (codes "card") (said (codes "b") [] ∷ []) ∷
        said (codes "card") (said (codes "empty") [] ∷ []) ∷
        []))) ∷
        [])
        ≡ Refused (record { place = AtCommand 1; code = refusal.Ambiguous }) }
    ensures no_formula { replay
        worked.numbers_imply_1
        1000
        []
        (command.Cases (lone (said (codes "__ + __") (said (codes "x") [] ∷ said (codes "0") [] ∷ []))) ∷ [])
        ≡ Refused (record { place = AtCommand 1; code = refusal.NoReading }) }
{}

/// A method wants a goal of its shape, and induction and partition want a clause.
pub fn shapes_and_clauses()
    ensures implication { replay worked.empties_imply_1 1000 [] (command.Implication ∷ [])
        ≡ Refused (record { place = AtCommand 1; code = refusal.Shape }) }
    ensures conjunction { replay worked.empties_imply_1 1000 [] (command.Conjunction ∷ [])
        ≡ Refused (record { place = AtCommand 1; code = refusal.Shape }) }
    ensures equality { replay worked.sets_imply_1 1000 [] (command.Partition ∷ [])
        ≡ Refused (record { place = AtCommand 1; code = refusal.Shape }) }
    ensures partitioned { replay worked.empties_imply_1 1000 [] (command.Partition ∷ [])
        ≡ Refused (record { place = AtCommand 1; code = refusal.Partitioned }) }
    ensures variable { replay worked.empties_imply_1 1000 [] (command.Induction (word (codes "k")) ∷ [])
        ≡ Refused (record { place = AtCommand 1; code = refusal.Variable }) }
    ensures generated { replay worked.empties_imply_1 1000 [] (command.Induction (word (codes "b")) ∷ [])
        ≡ Refused (record { place = AtCommand 1; code = refusal.Generated }) }
{}

/// The fact comes first, and then pair by pair the variable before its term.
pub fn what_is_not_instantiated()
    ensures fact { replay
        worked.sets_imply_1
        1000
        []
        (command.Instantiate (instead (codes "q") (said (codes "e") []) ∷ []) (whole_name Axiom 9) ∷ [])
        ≡ Refused (record { place = AtCommand 1; code = refusal.Fact }) }
    ensures clause { replay
        worked.sets_imply_1
        1000
        []
        (command.Instantiate (instead (codes "e") (said (codes "e") []) ∷ []) (whole_name Axiom 1) ∷ [])
        ≡ Refused (record { place = AtCommand 1; code = refusal.Fact }) }
    ensures variable { replay
        worked.sets_imply_1
        1000
        []
        (command.Instantiate (instead (codes "q") (said (codes "e") []) ∷ []) (whole_name Axiom 3) ∷ [])
        ≡ Refused (record { place = AtCommand 1; code = refusal.Variable }) }
    ensures reading { replay
        worked.sets_imply_1
        1000
        []
        (command.Instantiate (instead (codes "e") (said (codes "undefined") []) ∷ []) (whole_name Axiom 3) ∷ [])
        ≡ Refused (record { place = AtCommand 1; code = refusal.NoReading }) }
    ensures other_sort { replay
        worked.sets_imply_1
        1000
        []
        (command.Instantiate (instead (codes "e") (said (codes "{}") []) ∷ []) (whole_name Axiom 3) ∷ [])
        ≡ Refused (record { place = AtCommand 1; code = refusal.NoReading }) }
    ensures reading_of_the_first { replay
        worked.sets_imply_1
        1000
        []
        (command.Instantiate
        (instead (codes "e") (said (codes "undefined") []) ∷ instead (codes "q") (said (codes "e") []) ∷ [])
        (whole_name Axiom 3) ∷
        [])
        ≡ Refused (record { place = AtCommand 1; code = refusal.NoReading }) }
    ensures variable_of_the_first { replay
        worked.sets_imply_1
        1000
        []
        (command.Instantiate
        (instead (codes "q") (said (codes "e") []) ∷ instead (codes "e") (said (codes "undefined") []) ∷ [])
        (whole_name Axiom 3) ∷
        [])
        ≡ Refused (record { place = AtCommand 1; code = refusal.Variable }) }
    ensures twice { replay
        worked.sets_imply_1
        1000
        []
        (command.Instantiate
        (instead (codes "e") (said (codes "undefined") []) ∷ instead (codes "e") (said (codes "e") []) ∷ [])
        (whole_name Axiom 3) ∷
        [])
        ≡ Refused (record { place = AtCommand 1; code = refusal.Variable }) }
{}

/// Facts are those of the current level, by letter, number and part.
pub fn facts_by_name()
    ensures first_of_pair { replay
        worked.sets_imply_1
        1000
        []
        (command.CriticalPairs (whole_name Axiom 9) (whole_name Axiom 3) ∷ [])
        ≡ Refused (record { place = AtCommand 1; code = refusal.Fact }) }
    ensures second_of_pair { replay
        worked.sets_imply_1
        1000
        []
        (command.CriticalPairs (whole_name Axiom 3) (whole_name Axiom 9) ∷ [])
        ≡ Refused (record { place = AtCommand 1; code = refusal.Fact }) }
    ensures number { replay worked.sets_imply_1 1000 [] (command.Normalize (whole_name Axiom 9) ∷ [])
        ≡ Refused (record { place = AtCommand 1; code = refusal.Fact }) }
    ensures part { replay
        worked.sets_imply_1
        1000
        []
        (command.Normalize (record { letter = Axiom; number = 3; part = 2 }) ∷ [])
        ≡ Refused (record { place = AtCommand 1; code = refusal.Fact }) }
    ensures first_part { replay worked.sets_imply_1 1000 [] (command.Normalize (whole_name Axiom 3) ∷ [])
        ≡ Suspended
        1
        (apply_one
        (built_in Not bool_sort)
        (apply_two
        (built_in Equal (codes "C"))
        (apply_two worked.sets_insert (var (codes "e") (codes "E")) (var (codes "s") (codes "C")))
        (constant worked.sets_braces))) }
    ensures letter { replay worked.sets_imply_1 1000 [] (command.Normalize (whole_name Lemma 3) ∷ [])
        ≡ Refused (record { place = AtCommand 1; code = refusal.Fact }) }
    ensures taken_out { replay
        worked.sets_imply_1
        1000
        []
        (command.Normalize (whole_name Axiom 3) ∷ command.Normalize (whole_name Axiom 3) ∷ [])
        ≡ Refused (record { place = AtCommand 2; code = refusal.Fact }) }
{}

/// Pairs are added until the goal is proved; of one fact the root is left out.
pub fn pairs_in_turn()
    ensures proved_by_the_first { replay
        worked.meets_imply_1
        1000
        []
        (command.CriticalPairs (whole_name Axiom 1) (whole_name Axiom 2) ∷ [])
        ≡ Proved }
    ensures rest_takes_no_number { replay
        worked.meets_imply_1
        1000
        []
        (command.Cases (lone (said (codes "q") (said (codes "c") [] ∷ []))) ∷
        command.CriticalPairs (whole_name Axiom 1) (whole_name Axiom 2) ∷
        command.Instantiate (instead (codes "x") (said (codes "c") []) ∷ []) (whole_name Axiom 3) ∷
        command.Normalize (whole_name Derived 2) ∷
        [])
        ≡ Suspended
        1
        (apply_two worked.meets_h (constant worked.meets_b) (apply_one worked.meets_f (constant worked.meets_c))) }
    ensures each_takes_a_number { replay
        worked.meets_imply_2
        1000
        []
        (command.CriticalPairs (whole_name Axiom 1) (whole_name Axiom 2) ∷
        command.Normalize (whole_name Derived 2) ∷
        [])
        ≡ Suspended 1 (apply_two worked.meets_h (constant worked.meets_b) (constant worked.meets_b)) }
    ensures no_more { replay
        worked.meets_imply_2
        1000
        []
        (command.CriticalPairs (whole_name Axiom 1) (whole_name Axiom 2) ∷
        command.Normalize (whole_name Derived 3) ∷
        [])
        ≡ Refused (record { place = AtCommand 2; code = refusal.Fact }) }
    ensures without_the_root { replay
        worked.meets_imply_2
        1000
        []
        (command.CriticalPairs (whole_name Axiom 4) (whole_name Axiom 4) ∷
        command.CriticalPairs (whole_name Axiom 1) (whole_name Axiom 2) ∷
        command.Normalize (whole_name Derived 2) ∷
        [])
        ≡ Suspended 1 (apply_two worked.meets_h (constant worked.meets_b) (constant worked.meets_b)) }
{}
