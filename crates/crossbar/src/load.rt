// The load of a plan.
ghost use Rattle.std.specs.Prelude.{◌≡◌};
ghost use Rattle.crossbar.specs.Load.{load_verdict, Loads};

use crate::plans::plan_over;
use crate::state::{Reply, Switch};
use plan::acceptance::accept;
use refusal::Refusal;

impl Switch {
    #[tactic(auto, unfolding(crate::specs::Load::load_verdict))]
    fn load_verdict(self, n: usize, t: u32, rates: &[u16]) -> Result<(), Refusal>
        ensures { result ≡ load_verdict self n t rates.now }
    {
        if !self.is_valid() {
            return Err(Refusal::StateInvalid);
        }
        accept(n, t, rates)?;
        if n != self.running.ports || t != self.running.frame {
            return Err(Refusal::PlanMismatch);
        }
        Ok(())
    }

    // Put a plan in waiting, in the place of one that waits already.
    pub fn load(mut self, n: usize, t: u32, rates: &[u16]) -> Reply
        ensures { Loads self n t rates.now result }
    {
        let verdict = self.load_verdict(n, t, rates);
        let Ok(()) = verdict else {
            return Reply {
                state: self,
                verdict,
            };
        };
        self.waiting = plan_over(self.waiting, n, t, rates);
        self.waits = 1;
        Reply {
            state: self,
            verdict,
        }
    }
}
