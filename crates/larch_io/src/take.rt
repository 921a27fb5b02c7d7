ghost use Rattle.std.specs.Prelude.{◌≡◌, ◌≢◌, ◌+◌, ◌≤◌, [], All, length, take, IfOk, IfErr, OnOk, OnErr};
ghost use Rattle.larch_base.specs.declared.limits.TheConstants.{MAX_SOURCE_BYTES};
ghost use Rattle.larch_io.specs.Reader.{Takes, room_of};
ghost use Rattle.larch_io.specs.Refusal.{BytesRefused, LineRefused, TakeFaults};
ghost use Rattle.larch_io.specs.Take.{EndIs, LineStands, TakesLine};

use crate::line::TextLine;
use crate::reader::Reader;
use crate::refusal::TakeRefusal;
use crate::source::Source;
use larch_base::Bytes;
use larch_base::limits::MAX_LINE_BYTES;
use std::alloc::Global;

/// Takes the next line and its newline, which the last line may lack.
#[tactic(auto, using(crate::proofs::Front::takes_none_more, crate::proofs::Front::takes_nothing, crate::proofs::Front::takes_none))]
pub fn take_line<S: Source>(
    alloc: Global,
    reader: &mut Reader,
    source: &mut S,
) -> Result<TextLine, TakeRefusal>
    ensures line { IfOk result (TakesLine reader.old reader.new (S.left source.old) (S.left source.new)) }
    ensures none { OnErr result (Takes reader.old reader.new (S.left source.old) (S.left source.new) []) }
    ensures refused { IfErr result (λ refusal. LineRefused refusal reader.old reader.new) }
    ensures within { reader.new.count ≤ MAX_SOURCE_BYTES }
    ensures fine { OnOk result (S.faults source.new ≡ S.faults source.old) }
    ensures faults { IfErr result (λ refusal. TakeFaults refusal (S.faults source.old) (S.faults source.new)) }
{
    let (length, ending) = find_line(reader, source)?;
    let bytes = reader.take_front(alloc, length, ending)?;
    Ok(TextLine::from_vec(bytes))
}

/// Takes so many bytes. It never answers `TooLong`, which is of lines alone.
#[tactic(auto, using(crate::proofs::Front::takes_none_more, crate::proofs::Front::takes_nothing, crate::proofs::Front::takes_none))]
pub fn take_exact<S: Source>(
    alloc: Global,
    reader: &mut Reader,
    source: &mut S,
    count: u32,
) -> Result<Bytes, TakeRefusal>
    ensures count { IfOk result (λ bytes. length bytes ≡ count) }
    ensures bytes { IfOk result (Takes reader.old reader.new (S.left source.old) (S.left source.new)) }
    ensures none { OnErr result (Takes reader.old reader.new (S.left source.old) (S.left source.new) []) }
    ensures refused { IfErr result (λ refusal. BytesRefused refusal count reader.old reader.new) }
    ensures within { reader.new.count ≤ MAX_SOURCE_BYTES }
    ensures fine { OnOk result (S.faults source.new ≡ S.faults source.old) }
    ensures faults { IfErr result (λ refusal. TakeFaults refusal (S.faults source.old) (S.faults source.new)) }
{
    gather(reader, source, count as usize)?;
    let bytes = reader.take_front(alloc, count as usize, 0)?;
    Ok(Bytes::from_vec(bytes))
}

// Where the line at the front of the bytes that are kept ends.
enum LineEnd {
    // At its newline, which stands at this place.
    At(usize),
    // Behind these bytes: more are needed to tell.
    Behind,
    // Nowhere: it passes its limit.
    TooLong,
    // At no byte that may be taken.
    Full,
}

// Reads until the next line is kept. Answers how many bytes it has, and how many end it.
#[tactic(auto, using(crate::proofs::Front::takes_none, crate::proofs::Front::takes_none_more))]
fn find_line<S: Source>(reader: &mut Reader, source: &mut S) -> Result<(usize, usize), TakeRefusal>
    ensures taken { Takes reader.old reader.new (S.left source.old) (S.left source.new) [] }
    ensures counted { reader.new.count ≡ reader.old.count }
    ensures within { reader.new.count ≤ MAX_SOURCE_BYTES }
    ensures found { IfOk result (λ found. LineStands reader.new.kept reader.new.ended found.0 found.1) }
    ensures room { IfOk result (λ found. found.0 + found.1 ≤ room_of reader.old) }
    ensures refused { IfErr result (λ refusal. LineRefused refusal reader.old reader.new) }
    ensures fine { OnOk result (S.faults source.new ≡ S.faults source.old) }
    ensures faults { IfErr result (λ refusal. TakeFaults refusal (S.faults source.old) (S.faults source.new)) }
{
    'search: loop {
        match line_end(reader.kept(), reader.room()) {
            LineEnd::At(length) => return Ok((length, 1)),
            LineEnd::TooLong => return Err(TakeRefusal::TooLong),
            LineEnd::Full => return Err(TakeRefusal::Full),
            LineEnd::Behind => {}
        }
        let length = reader.kept().len();
        if reader.fill(source)? == 0 {
            return if length == 0 {
                Err(TakeRefusal::End)
            } else {
                Ok((length, 0))
            };
        }
    }
}

// Where the line at the front of these bytes ends, of which so many may be taken.
fn line_end(bytes: &[u8], room: usize) -> LineEnd
    ensures { EndIs bytes.now room result }
{
    let most = bytes.len().min(room).min(MAX_LINE_BYTES as usize + 1);
    for place in 0..most {
        if bytes[place] == b'\n' {
            return LineEnd::At(place);
        }
    }
    if bytes.len() <= room.min(MAX_LINE_BYTES as usize) {
        LineEnd::Behind
    } else if room <= MAX_LINE_BYTES as usize {
        LineEnd::Full
    } else {
        LineEnd::TooLong
    }
}

// Reads until so many bytes are kept.
#[tactic(auto, using(crate::proofs::Front::takes_none, crate::proofs::Front::takes_none_more))]
fn gather<S: Source>(reader: &mut Reader, source: &mut S, count: usize) -> Result<(), TakeRefusal>
    ensures taken { Takes reader.old reader.new (S.left source.old) (S.left source.new) [] }
    ensures counted { reader.new.count ≡ reader.old.count }
    ensures within { reader.new.count ≤ MAX_SOURCE_BYTES }
    ensures kept { OnOk result (count ≤ length reader.new.kept) }
    ensures room { OnOk result (count ≤ room_of reader.old) }
    ensures refused { IfErr result (λ refusal. BytesRefused refusal count reader.old reader.new) }
    ensures fine { OnOk result (S.faults source.new ≡ S.faults source.old) }
    ensures faults { IfErr result (λ refusal. TakeFaults refusal (S.faults source.old) (S.faults source.new)) }
{
    'fill: loop {
        let (kept, room) = (reader.kept().len(), reader.room());
        if room < kept && room < count {
            return Err(TakeRefusal::Full);
        }
        if count <= kept {
            return Ok(());
        }
        if reader.fill(source)? == 0 {
            return Err(TakeRefusal::End);
        }
    }
}
