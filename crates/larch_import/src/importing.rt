ghost use Rattle.std.specs.Prelude.{◌≡◌, IfOk, map};
ghost use Rattle.larch_term.specs.declared.statement.Statement.{Statement};
ghost use Rattle.larch_verify_meaning.specs.Acceptance.{Accepts};
ghost use Rattle.larch_verify_meaning.specs.RenamingRenaming.{renamed_statement};
ghost use Rattle.larch_verify_law.specs.Moves.{moved_line};
ghost use Rattle.larch_import_names.specs.Names.{renaming};
ghost use Rattle.larch_import_names.specs.Sorted.{HasNamedSorts};
ghost use Rattle.larch_import_meaning.specs.Imported.{HasRenamed, import_lines};
ghost use Rattle.larch_import_meaning.specs.Rules.{last_rule};
ghost use Rattle.larch_import.specs.ByWords.{move_of};

use crate::lengths::longest;
use crate::line::move_line;
use crate::numbers::new_numbers;
use crate::words::NewWords;
use larch_base::{Memory, Sequence};
use larch_certificate::{Certificate, Line, Numbers};
use larch_import_names::Renaming;
use larch_term::Theory;
use std::alloc::Global;

/// Numbers of statements, in order.
pub type Places = Numbers;

/// The certificate over the first theory as one over the second: with the new sorts and the numbers of the new
/// operators, and in place of the number of each statement the one at that place. A sort that isn't named becomes
/// longer than all sorts of the second theory and all new ones.
///
/// Where the second theory has the first one by the new names, at these places, what the certificate is accepted for
/// over the first one the answer is accepted for over the second, by the new names. The rule of the last line stays.
///
/// The time is linear in the certificate, for each sort in it times the number of sorts that are named. Terms may be of
/// any depth.
pub fn rename_certificate(
    alloc: Global,
    by: &Renaming,
    source: &Theory,
    target: &Theory,
    places: &Places,
    certificate: &Certificate,
) -> Result<Certificate, Memory>
    ensures lines { IfOk result (λ made. made
        ≡ import_lines by.now source.now target.now places.now certificate.now) }
    ensures accepted { IfOk result (λ made. (s : Statement) → HasRenamed by.now source.now target.now places.now
        → HasNamedSorts by.now s → Accepts source.now s certificate.now
        → Accepts target.now (renamed_statement (renaming by.now) s) made) }
    ensures ends { IfOk result (λ made. last_rule made ≡ last_rule certificate.now) }
{
    let letters = longest(by, target);
    let sites = places.as_slice();
    let lines = certificate.as_slice();
    let operators = new_numbers(alloc, by, source, target)?;
    let words = NewWords {
        renaming: by,
        letters,
        operators,
        places: sites,
    };
    move_lines(alloc, &words, lines)
}

// The lines by new words.
fn move_lines(alloc: Global, words: &NewWords, lines: &[Line]) -> Result<Certificate, Memory>
    ensures { IfOk result (λ moved. moved ≡ map (moved_line (move_of words.now)) lines.now) }
{
    let mut moved = Sequence::new(alloc);
    for line in lines {
        let line = move_line(alloc, words, line)?;
        moved.push(line)?;
    }
    Ok(moved)
}
