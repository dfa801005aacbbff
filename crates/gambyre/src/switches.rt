// The switch: start, arrival, load and step.
ghost use Rattle.std.specs.Prelude.{◌≡◌};
ghost use Rattle.crossbar.specs.Start.{start_of};
ghost use Rattle.crossbar.specs.Arrive.{arrive_of};
ghost use Rattle.crossbar.specs.Load.{load_of};
ghost use Rattle.crossbar.specs.Step.{step_of};
ghost use Rattle.records.specs.Records.{reply_record, slot_record};
ghost use Rattle.gambyre.specs.Written.{arrived, arrival_record};

use crossbar::start::start;
use crossbar::state::Switch;
use records::{ReplyRecord, SlotRecord};

#[unsafe(no_mangle)]
pub extern "C" fn gambyre_start(
    n: usize,
    t: u32,
    rates: &[u16],
    depth: usize,
    store: &[u32],
) -> ReplyRecord
    ensures { result ≡ reply_record (start_of n t rates.now depth store.now) }
{
    ReplyRecord::from(start(n, t, rates, depth, store))
}

#[unsafe(no_mangle)]
pub extern "C" fn gambyre_arrive(
    state: Switch,
    store: &mut [u32],
    i: usize,
    j: usize,
    cell: u32,
) -> ReplyRecord
    ensures { arrived result store.new ≡ arrival_record (arrive_of state store.old i j cell) }
{
    ReplyRecord::from(state.arrive(store, i, j, cell))
}

#[unsafe(no_mangle)]
pub extern "C" fn gambyre_load(state: Switch, n: usize, t: u32, rates: &[u16]) -> ReplyRecord
    ensures { result ≡ reply_record (load_of state n t rates.now) }
{
    ReplyRecord::from(state.load(n, t, rates))
}

#[unsafe(no_mangle)]
pub extern "C" fn gambyre_step(state: Switch, store: &[u32]) -> SlotRecord
    ensures { result ≡ slot_record (step_of state store.now) }
{
    SlotRecord::from(state.step(store))
}
