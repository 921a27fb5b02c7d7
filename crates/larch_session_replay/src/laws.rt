//! What holds of all that is replayed, for crates above to cite. No function here does anything.
ghost use Rattle.std.specs.Prelude.{ℕ, List, [], map};
ghost use Rattle.larch_script_commands.specs.declared.script.Script.{Script};
ghost use Rattle.larch_session_sources.specs.SessionLawCertified.{AreCertified};
ghost use Rattle.larch_session_sources.specs.SessionLawClaims.{AreClaims};
ghost use Rattle.larch_session_replay.specs.Replayed.{AreReplays, answer_of};
ghost use Rattle.larch_session_replay.specs.declared.replayed.Replayed.{Replayed};

/// Each duty that is proved has a certificate, over its theory with its lemmas, that can be written and doesn't end
/// with an axiom line of a clause: the one of its state.
pub fn what_is_replayed_is_certified()
    ensures { (limit : ℕ) (script : Script) (replays : List Replayed)
        → AreClaims (map (λ r. (answer_of r).duty) replays) → AreReplays limit script [] replays
        → AreCertified [] (map answer_of replays) }
{}
