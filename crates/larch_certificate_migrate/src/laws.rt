//! What holds of texts in the second version, for crates above to cite. No function here does anything.
ghost use Rattle.std.specs.Prelude.{◌≡◌, ◌<◌, ◌^◌, ℕ, Bool, true, List, Ok, length};
ghost use Rattle.larch_certificate.specs.declared.line.Line.{Line};
ghost use Rattle.larch_certificate_migrate.specs.Migrated.{second_text};
ghost use Rattle.larch_certificate_text.specs.CertificateText.{certificate_text, read_certificate};

/// The text in the second version is read as the lines that were read of the text, and migrating it writes the same
/// again. So whatever the lines are accepted or refused for, they still are.
pub fn migration_keeps_lines()
    ensures read { (text : List ℕ) (v : Bool) (lines : List Line) → length text < 2 ^ 63
        → read_certificate true text ≡ Ok (v, lines)
        → read_certificate true (certificate_text true lines) ≡ Ok (true, lines) }
    ensures again { (text written : List ℕ) → length text < 2 ^ 63 → second_text text ≡ Ok written
        → second_text written ≡ Ok written }
{}
