ghost use Rattle.std.specs.Prelude.{◌≡◌, ◌+◌, ◌∷◌, [], nat_lt, IfOk, None, OnOk};
ghost use Rattle.larch_grammar.specs.Depth.{depth_of, top, rest};
ghost use Rattle.larch_grammar.specs.declared.machine.Frame.TheVariants.{InConnectives, InEqualities, InInfixes};
ghost use Rattle.larch_base.specs.declared.limits.TheConstants.{MAX_NESTING};

use crate::machine::Frame;
use larch_base::Memory;
use larch_base::limits::MAX_NESTING;
use std::alloc::Global;
use std::marker::Model;

/// What waits for a term. Contracts see it as a list of frames, the innermost first.
#[derive(Drop)]
pub struct Stack {
    items: Vec<Frame>,
    depth: usize,
}

impl Model for Stack {
    ghost use Rattle.std.specs.Prelude.{List, ◌≡◌, reverse};
    ghost use Rattle.larch_grammar.specs.declared.machine.Frame.{Frame};
    ghost use Rattle.larch_grammar.specs.Depth.{depth_of};

    ghost Value = { List Frame };

    ghost use Rattle.std.specs.Coded.{codes};
    ghost use Rattle.larch_raw.specs.contracts.term.RawTerm as term_row;
    ghost use Rattle.larch_raw.specs.contracts.term.RawTerms as terms_row;

    ghost coded = { Prim.hlevel (codes, term_row.the_row.coded, terms_row.the_row.coded) };

    ghost view = { λ stack. reverse stack.items.items };

    ghost invariant = { λ stack. stack.depth ≡ depth_of (reverse stack.items.items) };
}

impl Stack {
    /// No frames. It takes no memory.
    pub fn new(alloc: Global) -> Stack
        ensures { result ≡ [] }
    {
        Stack {
            items: Vec::new(alloc),
            depth: 0,
        }
    }

    /// No frames, with room for those of most equations.
    pub fn with_room(alloc: Global) -> Result<Stack, Memory>
        ensures { IfOk result (λ stack. stack ≡ []) }
    {
        let items = Vec::with_capacity(alloc, 16)?;
        Ok(Stack { items, depth: 0 })
    }

    /// Puts a frame in front.
    pub fn push(&mut self, frame: Frame) -> Result<(), Memory>
        ensures { OnOk result (self.new ≡ frame ∷ self.old) }
    {
        let depth = if frame.opens() {
            self.depth.checked_add(1).ok_or(Memory)?
        } else {
            self.depth
        };
        self.items.push(frame)?;
        self.depth = depth;
        Ok(())
    }

    /// These frames, and in front of them the three chains that a term begins, without symbols yet.
    pub fn with_chains(self) -> Result<Stack, Memory>
        ensures { IfOk result (λ stack. stack ≡
            InInfixes None ∷ (InEqualities None ∷ (InConnectives None ∷ self))) }
    {
        let mut stack = self;
        stack.items.push(Frame::InConnectives(None))?;
        stack.items.push(Frame::InEqualities(None))?;
        stack.items.push(Frame::InInfixes(None))?;
        Ok(stack)
    }

    /// These frames and one in front of them.
    pub fn with(self, frame: Frame) -> Result<Stack, Memory>
        ensures { IfOk result (λ stack. stack ≡ frame ∷ self) }
    {
        let mut stack = self;
        stack.push(frame)?;
        Ok(stack)
    }

    /// Takes the innermost frame.
    pub fn pop(&mut self) -> Option<Frame>
        ensures frame { result ≡ top self.old }
        ensures left { self.new ≡ rest self.old }
    {
        let frame = self.items.pop()?;
        if frame.opens() {
            self.depth -= 1;
        }
        Some(frame)
    }

    /// Whether a further construct that opens would be one too many.
    pub fn is_full(&self) -> bool
        ensures { result ≡ nat_lt MAX_NESTING (1 + depth_of self.now) }
    {
        self.depth >= MAX_NESTING as usize
    }
}
