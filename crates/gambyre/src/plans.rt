// Plans: acceptance, the desk view, the regulator, the plan file and the plan's text.
ghost use Rattle.std.specs.Prelude.{◌≡◌};
ghost use Rattle.refusal.specs.Number.{verdict_number_of};
ghost use Rattle.plan.specs.Accept.{accept_of};
ghost use Rattle.plan.specs.Desk.{desk_of};
ghost use Rattle.plan.specs.Flag.{is_set};
ghost use Rattle.regulator.specs.Scale.{scale_of};
ghost use Rattle.regulator.specs.Boost.{boost_of};
ghost use Rattle.planfile.specs.Read.{read_of};
ghost use Rattle.plantext.specs.Read.{read_text_of};
ghost use Rattle.records.specs.Records.{reading_record};
ghost use Rattle.gambyre.specs.Written.{numbered, outcome_record, view_record};

use plan::acceptance::accept;
use plan::desk::desk_view;
use plan::lists::copy;
use planfile::read;
use plantext::read_text;
use records::{ReadingRecord, verdict_number};
use regulator::boost::boost;
use regulator::scale::scale;

#[unsafe(no_mangle)]
pub extern "C" fn gambyre_accept(n: usize, t: u32, rates: &[u16]) -> u32
    ensures { result ≡ verdict_number_of (accept_of n t rates.now) }
{
    verdict_number(accept(n, t, rates))
}

// Copies as much of the row as `out` takes, and answers the row's length.
#[tactic(auto, using(planpair::proofs::RateLaws::overlaid_front))]
fn copy_row(row: &[u16], out: &mut [u16]) -> usize
    ensures { numbered result out.new ≡ view_record row.now out.old }
{
    let count = row.len().min(out.len());
    copy(&row[..count], &mut out[..count]);
    row.len()
}

// A part of a list can't be handed to C as such: the row is copied.
#[unsafe(no_mangle)]
pub extern "C" fn gambyre_desk_view<'a>(
    running: &'a [u16],
    waiting: &'a [u16],
    n: usize,
    i: usize,
    takeover: u32,
    out: &mut [u16],
) -> usize
    ensures { numbered result out.new ≡ view_record (desk_of running.now waiting.now n i (is_set takeover)) out.old }
{
    copy_row(desk_view(running, waiting, n, i, takeover != 0), out)
}

#[unsafe(no_mangle)]
pub extern "C" fn gambyre_scale(n: usize, t: u32, demands: &[u16], rates: &mut [u16]) -> u32
    ensures { numbered result rates.new ≡ outcome_record (scale_of n t demands.now rates.old) }
{
    verdict_number(scale(n, t, demands, rates))
}

#[unsafe(no_mangle)]
pub extern "C" fn gambyre_boost(
    n: usize,
    t: u32,
    period: u32,
    given: &[u16],
    rates: &mut [u16],
) -> u32
    ensures { numbered result rates.new ≡ outcome_record (boost_of n t period given.now rates.old) }
{
    verdict_number(boost(n, t, period, given, rates))
}

#[unsafe(no_mangle)]
pub extern "C" fn gambyre_read(bytes: &[u8]) -> ReadingRecord
    ensures { result ≡ reading_record (read_of bytes.now) }
{
    ReadingRecord::from(read(bytes))
}

#[unsafe(no_mangle)]
pub extern "C" fn gambyre_read_text(n: usize, t: u32, text: &[u8], rates: &mut [u16]) -> u32
    ensures { numbered result rates.new ≡ outcome_record (read_text_of n t text.now rates.old) }
{
    verdict_number(read_text(n, t, text, rates))
}
