//! Laws on words. No function here does anything.
ghost use Rattle.std.specs.Prelude.{◌≡◌, ℕ, List, All, Ok};
ghost use Rattle.larch_raw.specs.declared.equation.RawEquation.{RawEquation};
ghost use Rattle.larch_rewrite_meaning.specs.Sides.{Sides};
ghost use Rattle.larch_script_commands.specs.Worded.{WordedKind};
ghost use Rattle.larch_script_commands.specs.declared.command.CommandKind.{CommandKind};
ghost use Rattle.larch_term.specs.Tree.{Tree};
ghost use Rattle.larch_prove_meaning.specs.InWords.{AreVariablesInWords, IsStatementInWords, IsTermInWords, NamesWords};
ghost use Rattle.larch_prove_meaning.specs.Levels.{Proof};
ghost use Rattle.larch_prove_meaning.specs.Replays.{Duty, all_stepped, begun_with, step};
ghost use Rattle.larch_prove_meaning.specs.Steps.{read_lone, read_sides};

/// What an equation, a formula or a term of a command reads as is in words, where the sorts of the theory's operators
/// and of the block's constants are words, and the variables in scope.
pub fn commands_read_words()
    ensures equation { (p : Proof) (raw : RawEquation) (e : Sides) → NamesWords p → read_sides p raw ≡ Ok e
        → IsTermInWords e.left × IsTermInWords e.right }
    ensures term { (p : Proof) (s : List ℕ) (raw : RawEquation) (t : Tree) → NamesWords p → read_lone p s raw ≡ Ok t
        → IsTermInWords t }
{}

/// The variables in scope and their sorts are words: from the opening on of a duty whose statement is in words, and
/// behind each command in words that isn't refused.
pub fn scopes_stay_in_words()
    ensures opened { (duty : Duty) (limit : ℕ) (preamble : List CommandKind) (p : Proof)
        → IsStatementInWords duty.statement → All WordedKind preamble → begun_with duty limit preamble ≡ Ok p
        → AreVariablesInWords p.scope }
    ensures stepped { (c : CommandKind) (p q : Proof) → WordedKind c → AreVariablesInWords p.scope → step c p ≡ Ok q
        → AreVariablesInWords q.scope }
    ensures replayed { (block : List CommandKind) (p q : Proof) → All WordedKind block → AreVariablesInWords p.scope
        → all_stepped block p ≡ Ok q → AreVariablesInWords q.scope }
{}
