//! What holds of what is derived, for crates above to cite. No function here does anything.
ghost use Rattle.std.specs.Prelude.{◌≡◌, ◌↔◌, ℕ, false, List, None, Some, Ok, map};
ghost use Rattle.larch_base.specs.declared.label.Label.{Label};
ghost use Rattle.larch_certificate.specs.declared.line.Line.{Line};
ghost use Rattle.larch_session_law.specs.DutiesTraitDuties.{trait_claims};
ghost use Rattle.larch_duties_meaning.specs.Claims.{Claim};
ghost use Rattle.larch_session_derive_meaning.specs.Called.{calls_proved};
ghost use Rattle.larch_session_derive_meaning.specs.Derived.{Derives};
ghost use Rattle.larch_session_derive_meaning.specs.Ordered.{AreInOrder};
ghost use Rattle.larch_session_derive_meaning.specs.Verified.{IsVerified};
ghost use Rattle.larch_session_law.specs.SessionMeaningFiles.{report_of};
ghost use Rattle.larch_session_law.specs.SessionMeaningTraits.{script_duty};
ghost use Rattle.larch_session_law.specs.TraitsFiles.{Table};
ghost use Rattle.larch_session_law.specs.TraitsReading.{read_files};

/// The text of what is derived is read again and accepted for the duty over its own theory, by the definitions of
/// `verify` alone; so the duty is derivable from it.
pub fn what_is_derived_is_verified()
    ensures { (limit : ℕ) (files : Table) (stem : List ℕ) (label : Label) (lines : List Line)
        → Derives limit files stem label (Some lines) → IsVerified files stem label lines }
{}

/// What the traits among files claim is in order: what may be a lemma of a duty has a theory that begins the duty's,
/// and duties of no clause come first.
pub fn claims_are_in_order()
    ensures { (files : Table) (stem : List ℕ) (claims : List Claim) → trait_claims (read_files files) stem ≡ Ok claims
        → AreInOrder (map script_duty claims) }
{}

/// Nothing is derived exactly where the report on the files doesn't call the duty proved.
pub fn nothing_is_derived_of_what_is_not_proved()
    ensures { (limit : ℕ) (files : Table) (stem : List ℕ) (label : Label)
        → Derives limit files stem label None ↔ (calls_proved (report_of limit files) stem label ≡ false) }
{}
