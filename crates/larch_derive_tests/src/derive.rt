use larch_base::{Memory, Sequence};
use larch_certificate::Line;
use larch_derive::{Builder, ChunkedList};
use larch_term::Theory;
use std::alloc::Global;

// A builder without lines. The lines name statements by their numbers, so the theory states nothing here.
fn empty(alloc: Global) -> Result<Builder, Memory> {
    let operators = Sequence::new(alloc);
    let statements = Sequence::new(alloc);
    let theory = Theory {
        operators,
        statements,
    };
    Builder::new(alloc, &theory)
}

// How many lines there are.
fn count(builder: &Builder) -> Result<usize, Memory> {
    let lines = builder.certificate()?;
    Ok(lines.as_slice().len())
}

#[test]
fn copies_are_independent(rt: HostRuntime) -> Result<(), Memory> {
    let mut builder = with_line(rt.alloc())?;
    let copied = builder.copy()?;
    assert_eq!(rt; count_after(&mut builder, &copied)?, 1);
    Ok(())
}

// A builder with one line.
fn with_line(alloc: Global) -> Result<Builder, Memory> {
    let mut builder = empty(alloc)?;
    builder.push(Line::Axiom(1))?;
    Ok(builder)
}

// How many lines a copy has when the builder gets another one.
fn count_after(builder: &mut Builder, copied: &Builder) -> Result<usize, Memory> {
    builder.push(Line::Axiom(2))?;
    count(copied)
}

// In a run in which an allocation fails, one of the lines may be refused.
#[test]
fn refused_lines_change_nothing(rt: HostRuntime) -> Result<(), Memory> {
    let mut builder = empty(rt.alloc())?;
    let mut pushed: usize = 0;
    for number in 0..200 {
        if builder.push(Line::Axiom(number)).is_ok() {
            pushed = pushed.saturating_add(1);
        }
    }
    assert_eq!(rt; count(&builder)?, pushed);
    Ok(())
}

#[test]
fn long_lists_are_dropped(rt: HostRuntime) -> Result<(), Memory> {
    let mut list = ChunkedList::new(rt.alloc());
    for number in 0..1_000_000u64 {
        list.push(number)?;
    }
    assert_eq!(rt; list.len(), 1_000_000);
    Ok(())
}
