// The board's half of a slot: each chosen flow moves a cell from its queue to its crosspoint.
ghost use Rattle.std.specs.Prelude.{◌≡◌, length};
ghost use Rattle.side.specs.Choices.{CanChoose};
ghost use Rattle.fabric.specs.Moves.{move_of, moved_of, room_for_all, CanMove, CanMoveAll};

use crate::flow::{Answer, Crosspoint, Queue};
use crate::{AfterServices, Fabric};
use plan::lines::flow_place;
use plan::range::{MOST_FLOWS, MOST_PORTS};

// What one board's service makes of its flow.
#[derive(Clone, Copy)]
pub struct Move {
    pub queue: Queue,
    pub point: Crosspoint,
    pub answer: Answer,
}

// Number 13: whether no board's service puts a third cell in a crosspoint. That the choices name ports below n is no invariant
// of a type: where a step is refused, the same choices go on with 0 ports.
pub fn room_for_all(
    queues: [Queue; MOST_FLOWS],
    crosspoints: [Crosspoint; MOST_FLOWS],
    choices: [Option<u8>; MOST_PORTS],
    n: usize,
) -> bool
    requires { CanChoose n choices }
    ensures { result ≡ room_for_all n choices queues crosspoints }
{
    (0..n).all(|i| match choices[i] {
        None => true,
        Some(j) => {
            let k = flow_place(n, i, usize::from(j));
            crosspoints[k].has_room(queues[k])
        }
    })
}

// The oldest cell of a queue goes to the crosspoint of head j, if there is one.
fn move_cell(queue: Queue, point: Crosspoint, cell: u32, j: usize, depth: usize) -> Move
    requires { CanMove depth queue point }
    ensures { result ≡ move_of depth j cell queue point }
{
    if queue.count == 0 {
        return Move {
            queue,
            point,
            answer: Answer::Empty(j),
        };
    }
    Move {
        queue: queue.shorter(depth),
        point: point.filled(cell),
        answer: Answer::Moved(j, cell),
    }
}

impl Fabric {
    // The services of the boards below n.
    pub fn moved(
        mut self,
        store: &[u32],
        choices: [Option<u8>; MOST_PORTS],
        n: usize,
        depth: usize,
    ) -> AfterServices
        requires { CanMoveAll n depth (length store.now) choices self.queues self.crosspoints }
        ensures { result ≡ moved_of n depth store.now choices self }
    {
        let mut answers = [Answer::Idle; MOST_PORTS];
        for (i, choice) in choices[..n].iter().enumerate() {
            let Some(other) = choice else {
                continue;
            };
            let j = usize::from(*other);
            let k = flow_place(n, i, j);
            let queue = self.queues[k];
            let cell = store[queue.oldest_place(n, depth, k)];
            let moved = move_cell(queue, self.crosspoints[k], cell, j, depth);
            self.queues[k] = moved.queue;
            self.crosspoints[k] = moved.point;
            answers[i] = moved.answer;
        }
        AfterServices {
            fabric: self,
            answers,
        }
    }
}
