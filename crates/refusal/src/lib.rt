// Why a call is refused. A call that can be refused gives `Result<(), Refusal>`, the verdict.
#![tactic(auto)]

ghost use Rattle.std.specs.Prelude.{◌≡◌};
ghost use Rattle.refusal.specs.Number.{number_of, verdict_number_of};

// A case for each row of the scope's table "What is sent back", and for each number that a change request adds. Number 9 is
// given to no refusal: a load is accepted while a plan waits.
#[derive(Clone, Copy, Debug, PartialEq, Eq)]
pub enum Refusal {
    // N is outside 1 to MOST_PORTS
    PortsOutOfRange,
    // T is outside 1 to MOST_SLOTS
    FrameOutOfRange,
    // a rate, demand or output list isn't N x N long
    ListLength,
    // a row sum is above T
    RowAboveFrame,
    // a column sum is above T
    ColumnAboveFrame,
    // Q is outside 1 to MOST_DEPTH
    DepthOutOfRange,
    // the store isn't N x N x Q long
    StoreLength,
    // a loaded plan has another N or T than the running one
    PlanMismatch,
    // an arrival for a port not below N
    NoSuchPort,
    // the flow's queue holds Q cells
    QueueFull,
    // the state breaks one of its own rules
    StateInvalid,
    // a step would put a third cell in a crosspoint
    CrosspointFull,
    // the mark isn't LSP or the version isn't 1
    NotPlanFile,
    // the file is under 8 bytes, or isn't 8 + 2 x N x N
    FileLength,
    // the text isn't N records of N fields, each a number of 16 bits in one to five digits
    NotPlanText,
    // the record has fewer slots than the stretch, or more than 65,535
    RecordLength,
}

impl Refusal {
    // The number of a refusal in the scope's table. By a match: of cases with numbers of their own (`= 1`), two that share one
    // would not compile, where here it is the proof that fails.
    pub fn number(self) -> u8
        ensures { result ≡ number_of self }
    {
        match self {
            Refusal::PortsOutOfRange => 1,
            Refusal::FrameOutOfRange => 2,
            Refusal::ListLength => 3,
            Refusal::RowAboveFrame => 4,
            Refusal::ColumnAboveFrame => 5,
            Refusal::DepthOutOfRange => 6,
            Refusal::StoreLength => 7,
            Refusal::PlanMismatch => 8,
            Refusal::NoSuchPort => 10,
            Refusal::QueueFull => 11,
            Refusal::StateInvalid => 12,
            Refusal::CrosspointFull => 13,
            Refusal::NotPlanFile => 14,
            Refusal::FileLength => 15,
            Refusal::NotPlanText => 16,
            Refusal::RecordLength => 17,
        }
    }
}

// The number of the refusal, or 0 for a call that was accepted.
pub fn verdict_number(verdict: Result<(), Refusal>) -> u8
    ensures { result ≡ verdict_number_of verdict }
{
    match verdict {
        Ok(()) => 0,
        Err(refusal) => refusal.number(),
    }
}
