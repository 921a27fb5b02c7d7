//! Laws about sessions.
ghost use Rattle.std.specs.Prelude.{◌≡◌, ◌≤◌, ◌↔◌, ◌++◌, ℕ, Bool, false, true, List, [], codes, length};
ghost use Rattle.larch_base.specs.declared.label.Label.{Label};
ghost use Rattle.larch_base.specs.declared.limits.TheConstants.{MAX_SOURCE_BYTES};
ghost use Rattle.larch_main_session.specs.Input.{Entry, IsInputOf};
ghost use Rattle.larch_main_session.specs.Laws.{Ends, HasOneText};
ghost use Rattle.larch_main_session.specs.Replies.{Reply, Front, ShowsDerivation, Spells, SpellsDerivation, Texts};
ghost use Rattle.larch_main_session.specs.Session.{State, Course, Ending, Session, start, with_status};
ghost use Rattle.larch_main_status.specs.Status.{IsDone};
ghost use Rattle.larch_main_status.specs.declared.status.Status.{Status};
ghost use Rattle.larch_session_derive_meaning.specs.Called.{calls_proved};
ghost use Rattle.larch_session_derive_meaning.specs.SessionMeaningFiles.{report_of};
ghost use Rattle.larch_main_status.specs.TraitsFiles.{Table};

/// On every input, from every state, a session ends by itself, with one of the statuses 0, 1, 6 and 7.
pub fn every_session_ends()
    ensures { (state : State) (input : List ℕ) → Ends state input }
{}

/// On one input, from one state, there is one list of replies, and one way and state in which a session leaves off.
pub fn one_course()
    ensures { (ended : Bool) (state : State) (input : List ℕ) (first second : List Reply) (here there : Ending)
        (last final : State)
        → Course ended state input first here last → Course ended state input second there final
        → (first ≡ second) × (here ≡ there) × (last ≡ final) }
{}

/// Each reply has one text, but for derivations.
pub fn one_text()
    ensures { (reply : Reply) (first second : List ℕ) → HasOneText reply → Spells reply first → Spells reply second
        → first ≡ second }
{}

/// It is said that there is no derivation exactly where the report on the files doesn't call the duty proved.
pub fn nothing_is_derived_of_what_is_not_proved()
    ensures { (limit : ℕ) (files : Table) (stem : List ℕ) (label : Label) (written : List ℕ)
        → SpellsDerivation limit files stem label written
        → (written ≡ codes "none\n") ↔ (calls_proved (report_of limit files) stem label ≡ false) }
{}

/// Each derivation that is written is accepted, when it is read again, for the duty over its own theory; so the duty is
/// derivable from it.
pub fn what_is_derived_is_shown()
    ensures { (limit : ℕ) (files : Table) (stem : List ℕ) (label : Label) (written : List ℕ)
        → SpellsDerivation limit files stem label written → ShowsDerivation files stem label written }
{}

/// Where replies have texts, each front of texts of theirs goes on to such a text.
pub fn a_front_goes_on()
    ensures { (replies : List Reply) (front output : List ℕ) → Front Spells replies front
        → Texts Spells replies output → (rest : List ℕ) × Texts Spells replies (front ++ rest) }
{}

/// A session whose input is a list of commands, within the limits, ends with status 0 or 1.
pub fn what_is_in_the_grammar_is_done()
    ensures { (limit : ℕ) (entries : List Entry) (input output : List ℕ) (status : Status) (last : State)
        → IsInputOf [] entries input → length input ≤ MAX_SOURCE_BYTES
        → Session true (start limit) input output (with_status status) last → IsDone status }
{}
