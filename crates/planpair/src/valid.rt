// Whether the two plans keep the rules of number 12.
ghost use Rattle.std.specs.Prelude.{◌≡◌};
ghost use Rattle.planpair.specs.Valid.{plan_valid, plans_valid};

use plan::Plan;
use plan::acceptance::accept;
use plan::range::ports_in_range;

// N is judged first: the array has N x N rates only up to 16 ports.
#[tactic(auto, using(plan::proofs::RangeLaws::ports_range, plan::proofs::LineLaws::square_small, plan::proofs::AcceptLaws::ports_decide), unfolding(crate::specs::Valid::plan_valid))]
fn plan_valid(plan: &Plan) -> bool
    ensures { result ≡ plan_valid plan.now }
{
    let n = plan.ports;
    ports_in_range(n) && accept(n, plan.frame, &plan.rates[..n * n]).is_ok()
}

// The waiting plan is judged only while one waits.
#[tactic(auto, unfolding(crate::specs::Valid::plans_valid))]
pub fn plans_valid(running: &Plan, waiting: &Plan, waits: bool) -> bool
    ensures { result ≡ plans_valid running.now waiting.now waits }
{
    plan_valid(running)
        && (!waits
            || plan_valid(waiting)
                && running.ports == waiting.ports
                && running.frame == waiting.frame)
}
