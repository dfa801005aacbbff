// What a takeover makes of the two plans.
ghost use Rattle.std.specs.Prelude.{◌≡◌, ◌≤◌};
ghost use Rattle.plan.specs.Range.{most_ports};
ghost use Rattle.planpair.specs.Takeover.{replaced, cleared};

use crate::rates::overlay;
use plan::Plan;
use plan::range::MOST_FLOWS;

// A plan with the N, T and rates of the one that takes over.
pub fn replaced(old: Plan, taken: Plan) -> Plan
    requires { taken.ports ≤ most_ports }
    ensures { result ≡ replaced old taken }
{
    let n = taken.ports;
    Plan {
        ports: n,
        frame: taken.frame,
        rates: overlay(old.rates, &taken.rates, n * n),
    }
}

// A plan whose N, T and rates are 0.
pub fn cleared(taken: Plan) -> Plan
    requires { taken.ports ≤ most_ports }
    ensures { result ≡ cleared taken }
{
    let n = taken.ports;
    Plan {
        ports: 0,
        frame: 0,
        rates: overlay(taken.rates, &[0; MOST_FLOWS], n * n),
    }
}
