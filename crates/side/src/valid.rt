// Number 12's rules for the service counts.
ghost use Rattle.std.specs.Prelude.{◌≡◌, ◌*◌, ◌≤◌, length};
ghost use Rattle.plan.specs.Range.{most_ports};
ghost use Rattle.side.specs.Valid.{ports_valid, counts_valid};

use multiplexer::Multiplexer;
use plan::lines::Lines;
use plan::range::MOST_PORTS;

// The counts of N ports, port p's by line p.
#[tactic(auto, unfolding(crate::specs::Valid::ports_valid))]
fn ports_valid(rates: &Lines, ports: [Multiplexer; MOST_PORTS], slot: u32) -> bool
    ensures { result ≡ ports_valid rates.now.list.now ports rates.now.n rates.now.across rates.now.along slot }
{
    ports[..rates.n]
        .iter()
        .enumerate()
        .all(|(p, port)| port.counts_valid(rates, p, slot))
}

// The counts of all ports below N, judged by the rates of the running plan.
pub fn counts_valid(
    rates: &[u16],
    boards: [Multiplexer; MOST_PORTS],
    heads: [Multiplexer; MOST_PORTS],
    n: usize,
    slot: u32,
) -> bool
    requires { (n ≤ most_ports) × (length rates.now ≡ n * n) }
    ensures { result ≡ counts_valid rates.now boards heads n slot }
{
    ports_valid(&Lines::rows(rates, n), boards, slot)
        && ports_valid(&Lines::columns(rates, n), heads, slot)
}
