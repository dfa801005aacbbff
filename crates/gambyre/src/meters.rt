// Measuring what a head served.
ghost use Rattle.std.specs.Prelude.{◌≡◌};
ghost use Rattle.meter.specs.Search.{cover_of};
ghost use Rattle.records.specs.Records.{cover_record};

use meter::cover;
use records::CoverRecord;

#[unsafe(no_mangle)]
pub extern "C" fn gambyre_cover(recorded: &[u16], flow: u16, l: usize) -> CoverRecord
    ensures { result ≡ cover_record (cover_of recorded.now flow l) }
{
    CoverRecord::from(cover(recorded, flow, l))
}
