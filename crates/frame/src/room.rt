// Room for every printout.
use arrayvec::ArrayString;
use plan::range::{MOST_PORTS, MOST_SLOTS};

// "slot", the names of inputs and outputs, LF. A port has at most two digits, and a slot four.
const HEADER_ROOM: usize = 4 + MOST_PORTS * 5 + MOST_PORTS * 6 + 1;

// The slot, the choices of inputs and outputs, LF.
const SLOT_LINE_ROOM: usize = 4 + MOST_PORTS * 3 + MOST_PORTS * 3 + 1;

const PRINTOUT_ROOM: usize = HEADER_ROOM + MOST_SLOTS as usize * SLOT_LINE_ROOM;

pub type Text = ArrayString<PRINTOUT_ROOM>;
