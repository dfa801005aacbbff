// A plan as the state has it.
ghost use Rattle.std.specs.Prelude.{◌≡◌};
ghost use Rattle.plan.specs.Accept.{IsPlan};
ghost use Rattle.crossbar.specs.Start.{plan_over};

use plan::Plan;
use planpair::rates::overlay;

// The plan with these rates, in whose array stands what the old one has past them. Not shared with planpair's `replaced`: by one
// function for both a slot fills 512 bytes more.
pub(crate) fn plan_over(old: Plan, n: usize, t: u32, rates: &[u16]) -> Plan
    requires { IsPlan n t rates.now }
    ensures { result ≡ plan_over old n t rates.now }
{
    let array = old.rates;
    Plan {
        ports: n,
        frame: t,
        rates: overlay(array, rates, n * n),
    }
}
