//! What holds of joined certificates, for crates above to cite. No function here does anything.
ghost use Rattle.std.specs.Prelude.{◌≡◌, ◌<◌, ◌^◌, List, length, sum_by};
ghost use Rattle.larch_term.specs.declared.statement.Statement.{Statement};
ghost use Rattle.larch_term.specs.declared.statement.Theory.{Theory};
ghost use Rattle.larch_certificate_text.specs.CertificateText.{Writable};
ghost use Rattle.larch_verify_meaning.specs.Acceptance.{Accepts};
ghost use Rattle.larch_verify_meaning.specs.LastLine.{EndsWithoutStatedClause};
ghost use Rattle.larch_derive_join.specs.Joined.{join_parts};
ghost use Rattle.larch_derive_join.specs.Promise.{AreWritable, Prove};
ghost use Rattle.larch_derive_join.specs.declared.part.Part.{Part};

/// Over each theory whose statements are well sorted and whose operators have plain names: where each part is accepted
/// for its statement over a theory that begins the whole one, with the earlier parts' statements behind its own, and
/// doesn't end with an axiom line of a clause, the joined lines are accepted for the last statement over the whole
/// theory, and don't end so either. Where all parts can be written, so can the joined lines. There are as many lines as
/// in all parts together.
pub fn joined_is_accepted()
    ensures accepted { (whole : Theory) (parts : List Part) (last : Statement) → Prove whole parts last
        → length (join_parts parts) < 2 ^ 64 → Accepts whole last (join_parts parts) }
    ensures ends { (whole : Theory) (parts : List Part) (last : Statement) → Prove whole parts last
        → length (join_parts parts) < 2 ^ 64 → EndsWithoutStatedClause whole (join_parts parts) }
    ensures writable { (parts : List Part) → AreWritable parts → length (join_parts parts) < 2 ^ 64
        → Writable (join_parts parts) }
    ensures count { (parts : List Part) → length (join_parts parts) ≡ sum_by (λ p. length p.certificate) parts }
{}
