ghost use Rattle.std.specs.Prelude.{◌≡◌, ◌∷◌, [], IfSome, IfNone, OnOk, reverse};
ghost use Rattle.larch_certificate_text.specs.Empty.{is_none_of};

use larch_certificate::from_base::Memory;
use std::alloc::Global;
use std::marker::Model;

/// Things of which the last that came is the first to go. Contracts see the last one first.
#[derive(Debug, Drop)]
pub struct Stack<T> {
    items: Vec<T>,
}

impl<T> Model for Stack<T> {
    ghost use Rattle.std.specs.Prelude.{List, reverse};
    ghost use Rattle.larch_certificate_text.specs.Empty.{is_none_of};

    ghost Value = { List T };

    ghost view = { λ stack. reverse stack.items.items };
}

impl<T> Stack<T> {
    /// Nothing yet. It takes no memory.
    pub fn new(alloc: Global) -> Stack<T>
        ensures { result ≡ [] }
    {
        Stack {
            items: Vec::new(alloc),
        }
    }

    /// Takes the last thing that came.
    pub fn pop(&mut self) -> Option<T>
        ensures some { IfSome result (λ item. self.old ≡ item ∷ self.new) }
        ensures none { IfNone result (self.old ≡ []) }
        ensures none_new { IfNone result (self.new ≡ []) }
    {
        self.items.pop()
    }

    /// Whether nothing is there.
    pub fn is_empty(&self) -> bool
        ensures { result ≡ is_none_of self.now }
    {
        self.items.is_empty()
    }
}

impl<T: Drop> Stack<T> {
    /// Puts a thing on top.
    pub fn push(&mut self, item: T) -> Result<(), Memory>
        ensures { OnOk result (self.new ≡ item ∷ self.old) }
    {
        self.items.push(item)?;
        Ok(())
    }
}
