// A range, as it is written.
ghost use Rattle.std.specs.Prelude.{◌≡◌, ◌++◌, OnOk};
ghost use Rattle.spec_exact.specs.Run.{refused_as};
ghost use Rattle.spec_simplex.specs.declared.ends.StartStop.TheVariants as stops;
ghost use Rattle.spec_commands.specs.RangeOut as ranges;

use crate::solve::print_past;
use lp_base::Bytes;
use lp_frac::{Frac, Past};
use lp_numtext::write;
use lp_range::Range;
use std::alloc::{AllocError, Global};

/// Appends the line of a range, or of the operation past 127 bits for which there is none.
pub(crate) fn print_range(
    alloc: Global,
    range: Result<Range, Past>,
    to: &mut Bytes,
) -> Result<(), AllocError>
    ensures { OnOk result (to.new ≡ to.old ++ ranges.ranged_text (refused_as stops.Past range)) }
{
    match range {
        Ok(range) => print_line(alloc, range, to),
        Err(past) => print_past(alloc, past, to),
    }
}

// Appends the line of a range: its lower end, its upper end, and the slope between them.
#[tactic(auto, unfolding(spec_commands::specs::RangeOut::range_line))]
fn print_line(alloc: Global, range: Range, to: &mut Bytes) -> Result<(), AllocError>
    ensures { OnOk result (to.new ≡ to.old ++ ranges.range_line range) }
{
    let Range { ends, slope } = range;
    print_end(alloc, b"RANGE ", ends.low, to)?;
    print_end(alloc, b" ", ends.high, to)?;
    to.extend(b" SLOPE ")?;
    write(alloc, slope, to)?;
    to.extend(b"\n")
}

// Appends the words before an end of a range, and the end, or `NONE` where the range has no end on that side.
fn print_end(
    alloc: Global,
    words: &[u8],
    end: Option<Frac>,
    to: &mut Bytes,
) -> Result<(), AllocError>
    ensures { OnOk result (to.new ≡ to.old ++ (words.now ++ ranges.end_text end)) }
{
    to.extend(words)?;
    match end {
        Some(end) => write(alloc, end, to),
        None => to.extend(b"NONE"),
    }
}
