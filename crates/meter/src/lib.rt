// How evenly an output serves its flows: the least and the most services of a flow in any l consecutive slots of a record.
#![tactic(auto)]

ghost use Rattle.std.specs.Prelude.{◌≡◌, ◌≤◌, length};
ghost use Rattle.meter.specs.Cover.{most_record, service_in, cover_at};
ghost use Rattle.meter.specs.Answer.{Measures, Covers};

use refusal::Refusal;

// The slots of the longest record.
const MOST_RECORD: usize = 65535;

// The entry of a slot that serves nobody: a number, because it is C's (include/gambyre.h, GAMBYRE_IDLE_SLOT).
pub const IDLE_SLOT: u16 = 65535;

// How many services a stretch has, and the place of its first slot.
#[repr(C)]
#[derive(Clone, Copy)]
pub struct Stretch {
    pub services: usize,
    pub place: usize,
}

// The first stretches with the least and with the most services.
#[derive(Drop)]
pub struct Measured {
    pub least: Stretch,
    pub most: Stretch,
}

fn service(flow: u16, entry: u16) -> usize
    ensures { result ≡ service_in flow entry }
{
    usize::from(entry == flow)
}

// The services in the first l slots: a sum, because a count of what `filter` lets through takes up to three times as long.
fn first_services(recorded: &[u16], flow: u16, l: usize) -> usize
    requires { l ≤ length recorded.now }
    ensures { result ≡ cover_at recorded.now flow l 0 }
{
    let mut services = 0;
    for entry in &recorded[..l] {
        services += service(flow, *entry);
    }
    services
}

// From place to place one slot enters the stretch and one leaves it, whatever l is. Of equal stretches the first one is kept.
// The slot that leaves is taken by its place: a loop over a `zip` is proved by what its iterators have left.
fn measure(recorded: &[u16], flow: u16, l: usize) -> Measured
    requires { (l ≤ length recorded.now) × (length recorded.now ≤ most_record) }
    ensures { Measures recorded.now flow l result }
{
    let mut services = first_services(recorded, flow, l);
    let mut least = Stretch { services, place: 0 };
    let mut most = least;
    for (place, entered) in recorded[l..].iter().enumerate() {
        services += service(flow, *entered);
        services -= service(flow, recorded[place]);
        let here = Stretch {
            services,
            place: place + 1,
        };
        if services < least.services {
            least = here;
        }
        if most.services < services {
            most = here;
        }
    }
    Measured { least, most }
}

// The record has an entry for each slot: the number of the flow that was served, or IDLE_SLOT.
pub fn cover(recorded: &[u16], flow: u16, l: usize) -> Result<Measured, Refusal>
    ensures { Covers recorded.now flow l result }
{
    if recorded.len() < l || MOST_RECORD < recorded.len() {
        return Err(Refusal::RecordLength);
    }
    Ok(measure(recorded, flow, l))
}
