// What the exported functions of gambyre answer: the operations' answers with numbers in the place of their cases. Verdicts and
// kinds are enums in the header, and an enum of C has 32 bits.
#![tactic(auto)]

ghost use Rattle.std.specs.Prelude.{◌≡◌};
ghost use Rattle.refusal.specs.Number.{verdict_number_of};
ghost use Rattle.fabric.specs.Answer.{kind_of};
ghost use Rattle.records.specs.Records.{other_of, cell_of, answer_record, port_records, choice_record, choice_in, reply_record, slot_record, reading_record, cover_record};

use crossbar::state::{Reply, SlotReply, Switch};
use fabric::flow::Answer;
use meter::{Measured, Stretch};
use plan::range::MOST_PORTS;
use plan::{Plan, no_plan};
use refusal::Refusal;

// The kinds of a port's answer, numbered as in include/gambyre.h.
enum PortKind {
    Idle = 0,
    Empty = 1,
    Moved = 2,
}

// The kinds of a choice, numbered likewise.
enum ChoiceKind {
    NoFlow = 0,
    Flow = 1,
}

// A port's answer. What a kind does not have is 0. The kind stays a number, here and in a choice: a caller may hand over any.
#[repr(C)]
#[derive(Clone, Copy)]
pub struct PortRecord {
    pub kind: u32,
    pub other: usize,
    pub cell: u32,
}

// A multiplexer's choice.
#[repr(C)]
#[derive(Clone, Copy)]
pub struct ChoiceRecord {
    pub kind: u32,
    pub flow: usize,
}

#[repr(C)]
#[derive(Clone, Copy)]
pub struct ReplyRecord {
    pub verdict: u32,
    pub state: Switch,
}

#[repr(C)]
#[derive(Clone, Copy)]
pub struct SlotRecord {
    pub verdict: u32,
    pub state: Switch,
    pub moves: [PortRecord; MOST_PORTS],
    pub sends: [PortRecord; MOST_PORTS],
}

#[repr(C)]
#[derive(Clone, Copy)]
pub struct ReadingRecord {
    pub verdict: u32,
    pub plan: Plan,
}

#[repr(C)]
#[derive(Clone, Copy)]
pub struct CoverRecord {
    pub verdict: u32,
    pub least: Stretch,
    pub most: Stretch,
}

// refusal's number with the 32 bits of an enum of C. Not a `From`: of u32 and Result neither is this crate's.
pub fn verdict_number(verdict: Result<(), Refusal>) -> u32
    ensures { result ≡ verdict_number_of verdict }
{
    u32::from(refusal::verdict_number(verdict))
}

fn kind_of(answer: Answer) -> u32
    ensures { result ≡ kind_of answer }
{
    match answer {
        Answer::Idle => PortKind::Idle as u32,
        Answer::Empty(_) => PortKind::Empty as u32,
        Answer::Moved(_, _) => PortKind::Moved as u32,
    }
}

fn other_of(answer: Answer) -> usize
    ensures { result ≡ other_of answer }
{
    match answer {
        Answer::Idle => 0,
        Answer::Empty(other) | Answer::Moved(other, _) => other,
    }
}

fn cell_of(answer: Answer) -> u32
    ensures { result ≡ cell_of answer }
{
    match answer {
        Answer::Idle | Answer::Empty(_) => 0,
        Answer::Moved(_, cell) => cell,
    }
}

// Field by field: by one `match` for the whole record the compiler copies 34 KB more in a slot.
impl From<Answer> for PortRecord {
    ghost from_gives = { λ answer r. r ≡ answer_record answer };

    fn from(answer: Answer) -> PortRecord {
        PortRecord {
            kind: kind_of(answer),
            other: other_of(answer),
            cell: cell_of(answer),
        }
    }
}

// Place by place: by `map` of the array the compiler copies 36 KB more in a slot.
#[tactic(auto, unfolding(crate::specs::Records::records_below))]
fn port_records(answers: [Answer; MOST_PORTS]) -> [PortRecord; MOST_PORTS]
    ensures { result ≡ port_records answers }
{
    let mut records = [PortRecord::from(Answer::Idle); MOST_PORTS];
    for (p, record) in records.iter_mut().enumerate() {
        *record = PortRecord::from(answers[p]);
    }
    records
}

impl From<Option<usize>> for ChoiceRecord {
    ghost from_gives = { λ choice r. r ≡ choice_record choice };

    fn from(choice: Option<usize>) -> ChoiceRecord {
        match choice {
            None => ChoiceRecord {
                kind: ChoiceKind::NoFlow as u32,
                flow: 0,
            },
            Some(flow) => ChoiceRecord {
                kind: ChoiceKind::Flow as u32,
                flow,
            },
        }
    }
}

// The choice that a caller hands over; every kind but that of no flow is a flow.
impl From<ChoiceRecord> for Option<usize> {
    ghost from_gives = { λ choice r. r ≡ choice_in choice };

    fn from(choice: ChoiceRecord) -> Option<usize> {
        (choice.kind != ChoiceKind::NoFlow as u32).then_some(choice.flow)
    }
}

impl From<Reply> for ReplyRecord {
    ghost from_gives = { λ reply r. r ≡ reply_record reply };

    fn from(reply: Reply) -> ReplyRecord {
        ReplyRecord {
            verdict: verdict_number(reply.verdict),
            state: reply.state,
        }
    }
}

impl From<SlotReply> for SlotRecord {
    ghost from_gives = { λ reply r. r ≡ slot_record reply };

    fn from(reply: SlotReply) -> SlotRecord {
        let SlotReply {
            state,
            verdict,
            moves,
            sends,
        } = reply;
        SlotRecord {
            verdict: verdict_number(verdict),
            state,
            moves: port_records(moves),
            sends: port_records(sends),
        }
    }
}

impl From<Result<Plan, Refusal>> for ReadingRecord {
    ghost from_gives = { λ reading r. r ≡ reading_record reading };

    fn from(reading: Result<Plan, Refusal>) -> ReadingRecord {
        match reading {
            Ok(plan) => ReadingRecord {
                verdict: verdict_number(Ok(())),
                plan,
            },
            Err(refusal) => ReadingRecord {
                verdict: verdict_number(Err(refusal)),
                plan: no_plan(),
            },
        }
    }
}

impl From<Result<Measured, Refusal>> for CoverRecord {
    ghost from_gives = { λ measured r. r ≡ cover_record measured };

    fn from(measured: Result<Measured, Refusal>) -> CoverRecord {
        match measured {
            Ok(Measured { least, most }) => CoverRecord {
                verdict: verdict_number(Ok(())),
                least,
                most,
            },
            Err(refusal) => {
                let none = Stretch {
                    services: 0,
                    place: 0,
                };
                CoverRecord {
                    verdict: verdict_number(Err(refusal)),
                    least: none,
                    most: none,
                }
            }
        }
    }
}
