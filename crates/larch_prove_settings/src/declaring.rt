ghost use Rattle.std.specs.List.{list_any, list_all};
ghost use Rattle.std.specs.Option.{option_copied};
ghost use Rattle.std.specs.Prelude.{◌≡◌, ◌&&◌, not, IfErr, OnErr, OnOk, Ok};
ghost use Rattle.larch_prove_meaning.specs.Levels.{Proof};
ghost use Rattle.larch_prove_meaning.specs.Steps.{agrees, declare, may_declare, texts};
ghost use Rattle.larch_prove_settings.specs.Settings.{AreSettingsOf, with_scope};
ghost use Rattle.larch_prove_settings.specs.Telling.{Tells};
ghost use Rattle.larch_sorts_meaning.specs.Scope.{sort_in};
ghost use Rattle.larch_term.specs.Equality.{same_name};
ghost use Rattle.larch_term.specs.Operator.{plain};

use crate::refusal::CommandRefusal;
use crate::settings::Settings;
use larch_base::{Code, Name};
use larch_raw::RawWord;
use larch_term::{Operator, Sort};
use std::alloc::Global;
use std::rc::Rc;

impl Settings {
    /// Declares variables of a sort. It is refused with UNKNOWN-SORT where the sort doesn't exist, and with VARIABLE
    /// where a name is a constant's, or has another sort; then nothing changes.
    pub fn declare(
        &mut self,
        alloc: Global,
        names: &[RawWord],
        sort: &RawWord,
    ) -> Result<(), CommandRefusal>
        ensures declared { OnOk result ((p : Proof) → AreSettingsOf self.old p
            → declare (texts names.now) sort.now.name p ≡ Ok (with_scope self.new.scope.value p)) }
        ensures refused { IfErr result (λ refusal. (p : Proof) → AreSettingsOf self.old p
            → Tells (declare (texts names.now) sort.now.name p) refusal) }
        ensures rest { self.new ≡ record self.old { scope = self.new.scope } }
        ensures err { OnErr result (self.new ≡ self.old) }
    {
        if !self.sorts.contains(&sort.name) {
            return Err(CommandRefusal::Wrong(Code::UnknownSort));
        }
        if !self.may_declare_all(names, &sort.name) {
            return Err(CommandRefusal::Wrong(Code::Variable));
        }
        let mut scope = self.scope.copy(alloc)?;
        scope.insert_names(names, &sort.name)?;
        self.scope = Rc::new(alloc, scope)?;
        Ok(())
    }

    // Whether all names can be declared at a sort.
    fn may_declare_all(&self, names: &[RawWord], sort: &Sort) -> bool
        ensures { (p : Proof) → AreSettingsOf self.now p
            → result ≡ list_all (may_declare p sort.now) (texts names.now) }
    {
        for word in names {
            if !self.may_declare(&word.name, sort) {
                return false;
            }
        }
        true
    }

    // Whether a name can be declared at a sort: it is no constant's, and no variable's of another sort.
    fn may_declare(&self, name: &Name, sort: &Sort) -> bool
        ensures { (p : Proof) → AreSettingsOf self.now p → result ≡ may_declare p sort.now name.now }
    {
        !is_taken(self.constants.as_slice(), name) && agrees(self.scope.scope().get(name), sort)
    }
}

// Whether an operator has a name.
fn is_taken(operators: &[Operator], name: &Name) -> bool
    ensures { result ≡ list_any (λ c. same_name c.name (plain name.now)) operators.now }
{
    operators.iter().any(|operator| *operator.name() == *name)
}

// Whether a variable of a name may have a sort: the name has no other.
fn agrees(known: Option<&Sort>, sort: &Sort) -> bool
    ensures { result ≡ agrees (option_copied known.entry) sort.now }
{
    match known {
        None => true,
        Some(known) => *known == *sort,
    }
}
