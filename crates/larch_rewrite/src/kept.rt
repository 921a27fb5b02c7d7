ghost use Rattle.std.specs.Prelude.{◌≡◌, ◌++◌, ◌∷◌, [], All, Contains, IfOk, IfSome, OnOk, OnErr, length, take};
ghost use Rattle.larch_rewrite.specs.Kept.{IsOfStore};
ghost use Rattle.larch_store.specs.Numbered.{term_of};
ghost use Rattle.larch_store.specs.Stored.{Belongs};

use indexmap::IndexMap;
use larch_base::Memory;
use larch_rewrite_step::from_rewrite_match::RowTables;
use larch_store::{Shared, Store};
use std::alloc::Global;
use std::cell::{Ref, RefCell};
use std::marker::Model;
use std::rc::Rc;

/// The normal form of a term: what it costs, and the line that says that the term equals it, where it is another one.
#[derive(Drop)]
pub struct KeptForm {
    pub start: Shared,
    pub form: Shared,
    pub cost: u32,
    pub way: Option<u64>,
}

/// Normal forms that are kept, found by the numbers of their terms, and the built-in rows at the sorts that have come
/// up, which are shared with others. Contracts see the forms, as a list.
#[derive(Drop)]
pub(crate) struct Kept {
    forms: Vec<KeptForm>,
    slots: IndexMap<u64, usize>,
    rows: Rc<RefCell<RowTables>>,
}

impl Model for Kept {
    ghost use Rattle.std.specs.Prelude.{List};
    ghost use Rattle.larch_rewrite.specs.declared.kept.KeptForm.{KeptForm};

    ghost Value = { List KeptForm };

    ghost use Rattle.std.specs.Coded.{codes};
    ghost use Rattle.larch_store.specs.NumberedCode.{coded_numbered};

    ghost coded = { Prim.hlevel (codes, coded_numbered) };

    ghost view = { λ kept. kept.forms.items };
}

impl Kept {
    // Nothing is kept.
    pub(crate) fn new(alloc: Global) -> Result<Kept, Memory>
        ensures { IfOk result (λ kept. kept ≡ []) }
    {
        let rows = Rc::new(alloc, RefCell::new(RowTables::new(alloc)))?;
        Ok(Kept {
            forms: Vec::new(alloc),
            slots: IndexMap::new(alloc),
            rows,
        })
    }

    // Nothing is kept, but the built-in rows are shared: what one of the two makes the other has.
    pub(crate) fn without_forms(&self) -> Result<Kept, Memory>
        ensures { IfOk result (λ kept. kept ≡ []) }
    {
        let alloc = self.allocator();
        let rows = self.rows.clone()?;
        Ok(Kept {
            forms: Vec::new(alloc),
            slots: IndexMap::new(alloc),
            rows,
        })
    }

    // Where its memory comes from.
    pub(crate) fn allocator(&self) -> Global {
        *self.forms.allocator()
    }

    // How many there are.
    pub(crate) fn len(&self) -> usize
        ensures { result ≡ length self.now }
    {
        self.forms.len()
    }

    // The rows that have been made. Those for a term are made first, unless they are there.
    pub(crate) fn rows_with(&self, term: &Shared) -> Result<Ref<'_, RowTables>, Memory> {
        if let Ok(mut tables) = self.rows.try_borrow_mut() {
            tables.prepare(term)?;
        }
        // Nobody writes to them for longer than it takes to make rows.
        self.rows.try_borrow().map_err(|_| Memory)
    }

    // What is kept of a term, if something is.
    pub(crate) fn find<'a>(&'a self, store: &Store, term: &Shared) -> Option<&'a KeptForm>
        requires term { Belongs store.now term.now }
        requires kept { All (IsOfStore store.now) self.now }
        ensures { IfSome result (λ k. Contains self.now k.now × (term_of k.now.start ≡ term_of term.now)) }
    {
        let slot = *self.slots.get(&store.number(term))?;
        let kept = self.forms.get(slot)?;
        if store.same(&kept.start, term) {
            return Some(kept);
        }
        None
    }

    // Keeps one more. Where memory runs out nothing changes.
    pub(crate) fn push(&mut self, store: &Store, form: KeptForm) -> Result<(), Memory>
        ensures ok { OnOk result (self.new ≡ self.old ++ form ∷ []) }
        ensures err { OnErr result (self.new ≡ self.old) }
    {
        self.slots
            .insert(store.number(&form.start), self.forms.len())?;
        self.forms.push(form)?;
        Ok(())
    }

    // Forgets all but the first ones.
    pub(crate) fn cut(&mut self, count: usize)
        ensures { self.new ≡ take count self.old }
    {
        self.forms.truncate(count);
    }
}
