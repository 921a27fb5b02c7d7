//! What holds of all scripts that are read, for crates above to cite. No function here does anything.
ghost use Rattle.std.specs.Prelude.{ℕ, List};
ghost use Rattle.larch_script_commands.specs.Worded.{WordedScript};
ghost use Rattle.larch_script.specs.Scripts.{script_of};

/// Each command of the script that a text is, in its preamble and in its blocks, is in words: the variables and sorts
/// in it are words, and so is each name that is a bare word.
pub fn commands_are_in_words()
    ensures { (text : List ℕ) → WordedScript (script_of text) }
{}
