ghost use Rattle.std.specs.Prelude.{◌≡◌, ◌+◌, ◌++◌, ◌∷◌, [], OnOk, OnErr, IfOk, length, map};

use larch_term::from_base::Memory;
use std::alloc::Global;
use std::marker::Model;
use std::rc::Rc;

// How many things stand in a chunk.
const CHUNK: usize = 64;

/// A list that grows at its end and lies in chunks, which its copies share. Contracts see it as a list.
#[derive(Drop)]
pub struct ChunkedList<T> {
    chunks: Vec<Rc<Vec<Rc<T>>>>,
    last: Vec<Rc<T>>,
    count: u64,
}

impl<T> Model for ChunkedList<T> {
    ghost use Rattle.std.specs.Prelude.{◌≡◌, List, ◌++◌, map, length};
    ghost use Rattle.std.specs.List.{flat_map};

    ghost Value = { List T };

    ghost view = { λ list. flat_map (λ chunk. map (λ item. item.value) chunk.items)
        (map (λ chunk. chunk.value) list.chunks.items) ++ map (λ item. item.value) list.last.items };

    ghost invariant = { λ list. list.count ≡ length
        (flat_map (λ chunk. map (λ item. item.value) chunk.items) (map (λ chunk. chunk.value) list.chunks.items)
        ++ map (λ item. item.value) list.last.items) };
}

impl<T: Drop> ChunkedList<T> {
    /// Nothing yet. It takes no memory.
    pub fn new(alloc: Global) -> ChunkedList<T>
        ensures { result ≡ [] }
    {
        ChunkedList {
            chunks: Vec::new(alloc),
            last: Vec::new(alloc),
            count: 0,
        }
    }

    /// How many things there are. It takes no memory.
    pub fn len(&self) -> u64
        ensures { result ≡ length self.now }
    {
        self.count
    }

    /// The same list once more. It shares the things, and what is later put at the end of one isn't in the other.
    pub fn copy(&self) -> Result<ChunkedList<T>, Memory>
        ensures { IfOk result (λ list. list ≡ self.now) }
    {
        let chunks = shares(self.chunks.as_slice(), *self.chunks.allocator())?;
        let last = shares(self.last.as_slice(), *self.last.allocator())?;
        let count = self.count;
        Ok(ChunkedList {
            chunks,
            last,
            count,
        })
    }

    /// Puts a thing at the end. Where memory runs out nothing changes.
    pub fn push(&mut self, item: T) -> Result<(), Memory>
        ensures ok { OnOk result (self.new ≡ self.old ++ item ∷ []) }
        ensures err { OnErr result (self.new ≡ self.old) }
    {
        if self.count == u64::MAX {
            return Err(Memory);
        }
        let item = Rc::new(*self.last.allocator(), item)?;
        self.close_chunk()?;
        self.last.push(item)?;
        self.count += 1;
        Ok(())
    }

    // Makes a chunk of the last things where there are enough of them.
    fn close_chunk(&mut self) -> Result<(), Memory>
        ensures { self.new ≡ self.old }
    {
        if self.last.len() < CHUNK {
            return Ok(());
        }
        let alloc = *self.last.allocator();
        let chunk = shares(self.last.as_slice(), alloc)?;
        let chunk = Rc::new(alloc, chunk)?;
        self.chunks.push(chunk)?;
        self.last.clear();
        Ok(())
    }

    /// References to the things, in order.
    pub fn refs<'a>(&'a self) -> Result<Vec<&'a T>, Memory>
        ensures { IfOk result (λ refs. map (λ item. item.now) refs.items ≡ self.now) }
    {
        let mut refs = Vec::new(*self.last.allocator());
        for chunk in &self.chunks {
            add_refs(chunk.as_slice(), &mut refs)?;
        }
        add_refs(self.last.as_slice(), &mut refs)?;
        Ok(refs)
    }
}

// The same things once more, shared.
fn shares<T: Drop>(items: &[Rc<T>], alloc: Global) -> Result<Vec<Rc<T>>, Memory>
    ensures { IfOk result (λ shared. map (λ item. item.value) shared.items ≡ map (λ item. item.value) items.now) }
{
    let mut shared = Vec::with_capacity(alloc, items.len())?;
    for item in items {
        let item = item.clone()?;
        shared.push(item)?;
    }
    Ok(shared)
}

// Puts references to the things behind others.
fn add_refs<'a, T>(items: &'a [Rc<T>], refs: &mut Vec<&'a T>) -> Result<(), Memory>
    ensures { OnOk result (map (λ item. item.now) refs.new.items
        ≡ map (λ item. item.now) refs.old.items ++ map (λ item. item.value) items.now) }
{
    for item in items {
        refs.push(item.as_ref())?;
    }
    Ok(())
}
