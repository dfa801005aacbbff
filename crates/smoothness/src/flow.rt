// A flow of a head, and what is promised of its services in l slots.
ghost use Rattle.std.specs.Prelude.{◌≡◌, ◌≤◌};
ghost use Rattle.meter.specs.Bound.{least_bound, most_bound};

// A head, as it is measured. A frame has a slot.
#[derive(Clone, Copy)]
pub struct Head {
    pub number: usize,
    pub frame: u32,
    pub ghost some_slot: { 1 ≤ frame },
}

#[derive(Clone, Copy)]
pub struct Flow {
    pub head: Head,
    pub board: usize,
    pub rate: u16,
}

impl Flow {
    pub fn least_bound(self, l: u32) -> u64
        ensures { result ≡ least_bound l self.rate self.head.frame }
    {
        let whole = (u64::from(l) + 1) * u64::from(self.rate) / u64::from(self.head.frame);
        whole.saturating_sub(1)
    }

    #[tactic(auto, using(console::proofs::CeilLaws::ceil_is, multiplexer::proofs::RoundLaws::quotient_rounded))]
    pub fn most_bound(self, l: u32) -> u64
        requires { 1 ≤ l }
        ensures { result ≡ most_bound l self.rate self.head.frame }
    {
        let share = (u64::from(l) - 1) * u64::from(self.rate);
        share.div_ceil(u64::from(self.head.frame)) + 1
    }
}
