//! Laws on the names of facts, and on the numbers of lemmas. No function here does anything.
ghost use Rattle.std.specs.Prelude.{◌≡◌, ◌≢◌, ℕ, List, [], AllPairs, Ok};
ghost use Rattle.larch_script_commands.specs.declared.script.Script.{Script};
ghost use Rattle.larch_script_commands.specs.declared.command.CommandKind.{CommandKind};
ghost use Rattle.larch_prove_meaning.specs.Levels.{Proof};
ghost use Rattle.larch_prove_meaning.specs.Named.{HaveDifferentNumbers, IsNamedProof};
ghost use Rattle.larch_prove_meaning.specs.Replays.{Duty, all_stepped, begun_with, step};
ghost use Rattle.larch_prove_meaning.specs.Reports.{Answered, all_answered, lemmas_for};
ghost use Rattle.larch_prove_meaning.specs.Scripts.{ClaimedDuty};

/// The facts of each level have different names, and hypotheses and derived facts have numbers that were given before,
/// where the numbers of the lemmas differ: from the opening on and behind each command that isn't refused.
pub fn names_of_facts_differ()
    ensures opened { (duty : Duty) (limit : ℕ) (preamble : List CommandKind) (p : Proof)
        → HaveDifferentNumbers duty.lemmas → begun_with duty limit preamble ≡ Ok p → IsNamedProof p }
    ensures stepped { (c : CommandKind) (p q : Proof) → IsNamedProof p → step c p ≡ Ok q → IsNamedProof q }
    ensures replayed { (block : List CommandKind) (p q : Proof) → IsNamedProof p → all_stepped block p ≡ Ok q
        → IsNamedProof q }
{}

/// The numbers of a duty's lemmas differ, in each report: they are those of earlier duties, which are counted.
pub fn numbers_of_lemmas_differ()
    ensures lemmas { (duty : ClaimedDuty) (earlier : List Answered)
        → AllPairs (λ a b. a.number ≢ b.number) earlier → HaveDifferentNumbers (lemmas_for duty earlier) }
    ensures earlier { (limit : ℕ) (script : Script) (duties : List ClaimedDuty)
        → AllPairs (λ a b. a.number ≢ b.number) (all_answered limit script [] 1 duties) }
{}
