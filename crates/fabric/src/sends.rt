// The head's half of a slot: each chosen flow sends a cell from its crosspoint.
ghost use Rattle.std.specs.Prelude.{◌≡◌};
ghost use Rattle.side.specs.Choices.{CanChoose};
ghost use Rattle.fabric.specs.Sends.{send_of, sent_of};

use crate::flow::{Answer, Crosspoint};
use crate::{AfterServices, Fabric};
use plan::lines::flow_place;
use plan::range::MOST_PORTS;

// What one head's service makes of its flow: a Move without the queue, which a head does not touch.
#[derive(Clone, Copy)]
pub struct Send {
    pub point: Crosspoint,
    pub answer: Answer,
}

// The oldest cell of the crosspoint of board i is sent, if there is one.
fn send_cell(point: Crosspoint, i: usize) -> Send
    ensures { result ≡ send_of i point }
{
    if point.count == 0 {
        return Send {
            point,
            answer: Answer::Empty(i),
        };
    }
    Send {
        point: point.without_oldest(),
        answer: Answer::Moved(i, point.cells[0]),
    }
}

impl Fabric {
    // The services of the heads below n. Not one loop with that of the boards: it reads no store and leaves the queues.
    pub fn sent(mut self, choices: [Option<u8>; MOST_PORTS], n: usize) -> AfterServices
        requires { CanChoose n choices }
        ensures { result ≡ sent_of n choices self }
    {
        let mut answers = [Answer::Idle; MOST_PORTS];
        for (j, choice) in choices[..n].iter().enumerate() {
            let Some(other) = choice else {
                continue;
            };
            let i = usize::from(*other);
            let k = flow_place(n, i, j);
            let sent = send_cell(self.crosspoints[k], i);
            self.crosspoints[k] = sent.point;
            answers[j] = sent.answer;
        }
        AfterServices {
            fabric: self,
            answers,
        }
    }
}
