ghost use Rattle.std.specs.Prelude.{◌≡◌, ◌≤◌, ◌+◌, Result, length, take};
ghost use Rattle.larch_prove_meaning.specs.Levels.{Proof};
ghost use Rattle.larch_prove_meaning.specs.Redo.{behind_common};
ghost use Rattle.larch_prove_meaning.specs.Replays.{Refusal};
ghost use Rattle.larch_prove_meaning.specs.Scripts.{commands_of};
ghost use Rattle.larch_session_trail.specs.Trail.{IsTrailOf, common};
ghost use Rattle.larch_session_trail.specs.declared.trail.Trail.{Trail as is_trail};
ghost use Rattle.larch_term.specs.declared.statement.Statement.{Statement as is_statement};

use larch_script_commands::{RawCommand, same_command};

/// How many commands stand at the longest common front of two blocks, wherever they stand in their scripts. The trail
/// of one front is that of the other. It takes no memory.
pub fn common_front(before: &[RawCommand], now: &[RawCommand]) -> usize
    ensures within { result ≤ length now.now }
    ensures behind { behind_common (commands_of before.now) (commands_of now.now) + result ≡ length now.now }
    ensures states { (s : is_statement) (answer : Result Proof Refusal) (trail : is_trail)
        → IsTrailOf s answer (take result (commands_of before.now)) trail
        → IsTrailOf s answer (take result (commands_of now.now)) trail }
{
    count_common(before, now)
}

// How many commands stand at the common front.
fn count_common(before: &[RawCommand], now: &[RawCommand]) -> usize
    ensures { result ≡ common (commands_of before.now) (commands_of now.now) }
{
    let most = before.len().min(now.len());
    for number in 0..most {
        if !same_command(&before[number], &now[number]) {
            return number;
        }
    }
    most
}
