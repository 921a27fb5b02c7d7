ghost use Rattle.std.specs.Prelude.{◌≡◌};
ghost use Rattle.larch_prove_work.specs.Work.{command_refusal};

use larch_base::Code;
use larch_prove_settings::CommandRefusal;
use larch_prove_settling::from_rewrite::RewriteRefusal;

/// The refusal of a command whose work is refused.
pub fn command_refusal(refusal: RewriteRefusal) -> CommandRefusal
    ensures { result ≡ command_refusal refusal }
{
    match refusal {
        RewriteRefusal::Limit => CommandRefusal::Wrong(Code::Limit),
        RewriteRefusal::TooLarge => CommandRefusal::Wrong(Code::Size),
        RewriteRefusal::Memory => CommandRefusal::Memory,
    }
}
