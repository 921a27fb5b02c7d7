ghost use Rattle.std.specs.Prelude.{◌≡◌, count_by};
ghost use Rattle.larch_report.specs.Counts.{counts_of, is_error, is_good, is_proved, is_refused, is_suspended, is_trait};

use crate::line::{DutyOutcome, ReportLine};

/// What a report counts.
#[derive(Clone, Copy, Debug, PartialEq, Eq)]
pub struct Counts {
    /// The traits.
    pub traits: usize,
    /// The lines that say that something is wrong with a trait or a script.
    pub errors: usize,
    /// The duties that are proved.
    pub proved: usize,
    /// Those of which a goal is open.
    pub suspended: usize,
    /// Those whose script is refused.
    pub refused: usize,
}

/// What these lines count.
pub fn counts_of(lines: &[ReportLine]) -> Counts
    ensures { result ≡ counts_of lines.now }
{
    Counts {
        traits: trait_count(lines),
        errors: error_count(lines),
        proved: proved_count(lines),
        suspended: suspended_count(lines),
        refused: refused_count(lines),
    }
}

fn trait_count(lines: &[ReportLine]) -> usize
    ensures { result ≡ count_by is_trait lines.now }
{
    lines.iter().filter(|line| is_trait(line)).count()
}

fn error_count(lines: &[ReportLine]) -> usize
    ensures { result ≡ count_by is_error lines.now }
{
    lines.iter().filter(|line| is_error(line)).count()
}

fn proved_count(lines: &[ReportLine]) -> usize
    ensures { result ≡ count_by is_proved lines.now }
{
    lines.iter().filter(|line| is_proved(line)).count()
}

fn suspended_count(lines: &[ReportLine]) -> usize
    ensures { result ≡ count_by is_suspended lines.now }
{
    lines.iter().filter(|line| is_suspended(line)).count()
}

fn refused_count(lines: &[ReportLine]) -> usize
    ensures { result ≡ count_by is_refused lines.now }
{
    lines.iter().filter(|line| is_refused(line)).count()
}

/// Whether a report that counts so is good: nothing is wrong, and no duty is left.
pub fn is_good(counts: Counts) -> bool
    ensures { result ≡ is_good counts }
{
    counts.errors == 0 && counts.suspended == 0 && counts.refused == 0
}

fn is_trait(line: &ReportLine) -> bool
    ensures { result ≡ is_trait line.now }
{
    matches!(line, ReportLine::Right(_) | ReportLine::Wrong(_, _))
}

fn is_error(line: &ReportLine) -> bool
    ensures { result ≡ is_error line.now }
{
    matches!(
        line,
        ReportLine::Wrong(_, _) | ReportLine::Script(_, _) | ReportLine::Stray(_)
    )
}

fn is_proved(line: &ReportLine) -> bool
    ensures { result ≡ is_proved line.now }
{
    matches!(line, ReportLine::Duty(_, DutyOutcome::Proved))
}

fn is_suspended(line: &ReportLine) -> bool
    ensures { result ≡ is_suspended line.now }
{
    matches!(line, ReportLine::Duty(_, DutyOutcome::Suspended(_, _)))
}

fn is_refused(line: &ReportLine) -> bool
    ensures { result ≡ is_refused line.now }
{
    matches!(line, ReportLine::Duty(_, DutyOutcome::Refused(_, _)))
}
