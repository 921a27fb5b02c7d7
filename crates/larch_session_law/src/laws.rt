//! What holds of what is replayed, for crates above to cite. No function here does anything.
ghost use Rattle.std.specs.Prelude.{◌≡◌, ℕ, List, [], All, Contains, Ok, map};
ghost use Rattle.larch_session_meaning.specs.DutiesTraitDuties.{trait_claims};
ghost use Rattle.larch_session_meaning.specs.DutiesMeaningClaims.{Claim};
ghost use Rattle.larch_prove_meaning.specs.InWords.{IsStatementInWords};
ghost use Rattle.larch_prove_meaning.specs.Levels.{Proof};
ghost use Rattle.larch_prove_meaning.specs.Named.{HaveDifferentNumbers};
ghost use Rattle.larch_prove_meaning.specs.Replays.{Duty, replay_block};
ghost use Rattle.larch_prove_meaning.specs.Reports.{Answered, lemmas_for};
ghost use Rattle.larch_prove_meaning.specs.Scripts.{ClaimedDuty};
ghost use Rattle.larch_prove_meaning.specs.WellSorted.{AreLemmasOver, IsWellSortedDuty};
ghost use Rattle.larch_script_commands.specs.declared.command.CommandKind.{CommandKind};
ghost use Rattle.larch_session_law.specs.Certified.{AreCertified, IsJustified};
ghost use Rattle.larch_session_law.specs.Claims.{AreClaims};
ghost use Rattle.larch_session_meaning.specs.Traits.{script_duty};
ghost use Rattle.larch_session_meaning.specs.TraitsFiles.{Table};
ghost use Rattle.larch_session_meaning.specs.TraitsReading.{read_files};

/// Each duty that is proved is derivable from its own theory, if each has a certificate over its theory with its
/// lemmas.
pub fn what_is_certified_is_derivable()
    ensures { (answers : List Answered) → AreClaims (map (λ a. a.duty) answers) → AreCertified [] answers
        → All IsJustified answers }
{}

/// What the traits among files claim is well sorted and in words, over theories of plain names; there are at most a
/// thousand duties of one trait, and what may be a lemma of a duty has a theory that is part of the duty's.
pub fn claims_can_be_replayed()
    ensures { (files : Table) (stem : List ℕ) (claims : List Claim) → trait_claims (read_files files) stem ≡ Ok claims
        → AreClaims (map script_duty claims) }
{}

/// The lemmas of a duty are well sorted over the operators of its theory, and in words.
pub fn lemmas_can_be_used()
    ensures sorted { (duties : List ClaimedDuty) (duty : ClaimedDuty) (earlier : List Answered) → AreClaims duties
        → Contains duties duty → ((a : Answered) → Contains earlier a → Contains duties a.duty)
        → AreLemmasOver duty.theory.operators (lemmas_for duty earlier) }
    ensures words { (duties : List ClaimedDuty) (duty : ClaimedDuty) (earlier : List Answered) → AreClaims duties
        → ((a : Answered) → Contains earlier a → Contains duties a.duty)
        → All (λ l. IsStatementInWords l.statement) (lemmas_for duty earlier) }
{}

/// A proof that a block comes to is one over the theory that the replay started from, and with its lemmas.
pub fn what_is_begun_has_its_lemmas()
    ensures theory { (duty : Duty) (limit : ℕ) (preamble block : List CommandKind) (p : Proof) → IsWellSortedDuty duty
        → replay_block duty limit preamble block ≡ Ok p → p.theory ≡ duty.theory }
    ensures lemmas { (duty : Duty) (limit : ℕ) (preamble block : List CommandKind) (p : Proof) → IsWellSortedDuty duty
        → replay_block duty limit preamble block ≡ Ok p → p.lemmas ≡ duty.lemmas }
{}
