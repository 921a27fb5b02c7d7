ghost use Rattle.std.specs.Prelude.{◌≡◌, ◌++◌, ◌∷◌, [], IfOk, IfSome, IfNone, Some, None, option_map};
ghost use Rattle.larch_certificate.specs.Coded.{coded_app, coded_forest_of};
ghost use Rattle.larch_certificate_reader.specs.MachineViews.{ended_behind, FirstMark, front_view, machine_of};
ghost use Rattle.larch_certificate_reader.specs.MachineViews.{mark_of, after_mark, marked_behind, progress, Unmarked};
ghost use Rattle.larch_certificate_text.specs.SymbolText.{read_symbol};
ghost use Rattle.larch_certificate_text.specs.TermText.{close_by, comma_by, fresh, open_by, run, settle, value_by};

use crate::leaf::{read_leaf, read_symbol};
use crate::names::Names;
use larch_base::{Memory, Sequence};
use larch_certificate::{Coded, CodedTerms};
use larch_certificate_text::{Frame, Here, Stack};

/// What ends the bytes of a leaf.
#[derive(Clone, Copy)]
pub enum LeafEnd {
    /// The parenthesis in front of the arguments.
    Open,
    /// The comma between two arguments.
    Comma,
    /// The parenthesis behind the arguments.
    Close,
}

/// What was read of a term up to a mark: the symbols that wait for arguments, and the term that was closed last.
#[derive(Drop)]
pub struct Reading {
    pub stack: Stack<Frame>,
    pub closed: Option<Coded>,
}

/// What a mark leads to.
#[derive(Drop)]
pub enum Step {
    /// No term goes on so.
    Stuck,
    /// More bytes are awaited.
    Goes,
    /// The whole term.
    Ends(Coded),
}

fn mark_of(byte: u8) -> Option<LeafEnd>
    ensures { result ≡ mark_of byte }
{
    match byte {
        b'(' => Some(LeafEnd::Open),
        b',' => Some(LeafEnd::Comma),
        b')' => Some(LeafEnd::Close),
        _ => None,
    }
}

// The bytes before the first mark, the mark, and what stands behind it.
#[tactic(auto, using(crate::proofs::Feeding::mark_found, crate::proofs::Feeding::mark_missing))]
fn cut_at_mark(text: &[u8]) -> Option<(&[u8], LeafEnd, &[u8])>
    ensures some { IfSome result (λ cut. FirstMark text.now cut.0.now cut.1 cut.2.now) }
    ensures none { IfNone result (Unmarked text.now) }
{
    for i in 0..text.len() {
        if let Some(mark) = mark_of(text[i]) {
            return Some((&text[..i], mark, &text[i + 1..]));
        }
    }
    None
}

fn value(
    names: &mut Names,
    here: Here,
    closed: Option<Coded>,
    atom: &[u8],
) -> Result<Option<Coded>, Memory>
    ensures { IfOk result (λ term. term ≡ value_by here closed atom.now) }
{
    match closed {
        Some(term) => Ok(Some(term)),
        None => read_leaf(names, here, atom),
    }
}

fn open(names: &mut Names, here: Here, reading: &mut Reading, atom: &[u8]) -> Result<Step, Memory>
    ensures { IfOk result (λ s. progress s reading.new
        ≡ open_by reading.old.closed (read_symbol here atom.now) reading.old.stack) }
{
    if reading.closed.is_some() {
        return Ok(Step::Stuck);
    }
    let Some(symbol) = read_symbol(here, atom) else {
        return Ok(Step::Stuck);
    };
    reading.stack.push(Frame {
        symbol,
        done: Sequence::new(names.alloc),
    })?;
    Ok(Step::Goes)
}

fn comma(names: &mut Names, here: Here, reading: &mut Reading, atom: &[u8]) -> Result<Step, Memory>
    ensures { IfOk result (λ s. progress s reading.new
        ≡ comma_by (value_by here reading.old.closed atom.now) reading.old.stack) }
{
    let Some(term) = value(names, here, reading.closed.take(), atom)? else {
        return Ok(Step::Stuck);
    };
    let Some(mut frame) = reading.stack.pop() else {
        return Ok(Step::Stuck);
    };
    frame.done.push(term)?;
    reading.stack.push(frame)?;
    Ok(Step::Goes)
}

fn close(names: &mut Names, here: Here, reading: &mut Reading, atom: &[u8]) -> Result<Step, Memory>
    ensures { IfOk result (λ s. progress s reading.new
        ≡ close_by (value_by here reading.old.closed atom.now) reading.old.stack) }
{
    let Some(term) = value(names, here, reading.closed.take(), atom)? else {
        return Ok(Step::Stuck);
    };
    let Some(frame) = reading.stack.pop() else {
        return Ok(Step::Stuck);
    };
    let whole = closed_frame(frame, term)?;
    Ok(settle(reading, whole))
}

fn closed_frame(frame: Frame, last: Coded) -> Result<Coded, Memory>
    ensures { IfOk result (λ term. term ≡ coded_app frame.symbol (coded_forest_of (frame.done ++ last ∷ []))) }
{
    let Frame { symbol, done } = frame;
    let mut arguments = done.into_vec();
    arguments.reserve_exact(1)?;
    arguments.push(last)?;
    let arguments = CodedTerms::from_vec(arguments)?;
    Ok(Coded::app(symbol, arguments))
}

fn settle(reading: &mut Reading, term: Coded) -> Step
    ensures { progress result reading.new ≡ settle term reading.old.stack }
{
    if reading.stack.is_empty() {
        return Step::Ends(term);
    }
    reading.closed = Some(term);
    Step::Goes
}

fn take_mark(
    names: &mut Names,
    here: Here,
    reading: &mut Reading,
    atom: &[u8],
    mark: LeafEnd,
) -> Result<Step, Memory>
    ensures { IfOk result (λ s. progress s reading.new
        ≡ marked_behind here mark reading.old.closed atom.now reading.old.stack) }
{
    if reading.closed.is_some() && !atom.is_empty() {
        return Ok(Step::Stuck);
    }
    take_first(names, here, reading, atom, mark)
}

fn take_first(
    names: &mut Names,
    here: Here,
    reading: &mut Reading,
    atom: &[u8],
    mark: LeafEnd,
) -> Result<Step, Memory>
    ensures { IfOk result (λ s. progress s reading.new
        ≡ after_mark here mark reading.old.closed atom.now reading.old.stack) }
{
    match mark {
        LeafEnd::Open => open(names, here, reading, atom),
        LeafEnd::Comma => comma(names, here, reading, atom),
        LeafEnd::Close => close(names, here, reading, atom),
    }
}

/// The term at the front of the text, up to the parenthesis that closes it, and what stands behind it.
pub fn read_front<'a>(
    names: &mut Names,
    here: Here,
    text: &'a [u8],
) -> Result<Option<(Coded, &'a [u8])>, Memory>
    ensures { IfOk result (λ front. front_view front ≡ run here (fresh []) text.now) }
{
    let mut reading = Reading {
        stack: Stack::new(names.alloc),
        closed: None,
    };
    let front = feed(names, here, &mut reading, text)?;
    Ok(front)
}

// What is made of the text behind what was read.
#[tactic(auto, using(crate::proofs::Feeding::feed_goes, crate::proofs::Feeding::feed_stuck, crate::proofs::Feeding::feed_ends, crate::proofs::Feeding::feed_end))]
fn feed<'a>(
    names: &mut Names,
    here: Here,
    reading: &mut Reading,
    text: &'a [u8],
) -> Result<Option<(Coded, &'a [u8])>, Memory>
    ensures { IfOk result (λ front. front_view front ≡ run here (machine_of reading.old) text.now) }
{
    let mut rest = text;
    'marks: while let Some((atom, mark, others)) = cut_at_mark(rest) {
        match take_mark(names, here, reading, atom, mark)? {
            Step::Stuck => return Ok(None),
            Step::Goes => rest = others,
            Step::Ends(term) => return Ok(Some((term, others))),
        }
    }
    match at_end(names, here, reading, rest)? {
        Some(term) => Ok(Some((term, b""))),
        None => Ok(None),
    }
}

fn at_end(
    names: &mut Names,
    here: Here,
    reading: &mut Reading,
    rest: &[u8],
) -> Result<Option<Coded>, Memory>
    ensures { IfOk result (λ term. option_map (λ t. (t, [])) term
        ≡ ended_behind here reading.old.closed rest.now reading.old.stack) }
{
    if !reading.stack.is_empty() {
        return Ok(None);
    }
    if reading.closed.is_some() && !rest.is_empty() {
        return Ok(None);
    }
    value(names, here, reading.closed.take(), rest)
}
