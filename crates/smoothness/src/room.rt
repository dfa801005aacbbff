// Room for every printout.
use arrayvec::ArrayString;
use plan::range::MOST_PORTS;

// In how many lengths a flow is measured.
pub const STRETCHES: usize = 4;

const HEADER_ROOM: usize = 47;

// Eight numbers of at most 20 digits, with a space or LF behind each.
const LINE_ROOM: usize = 8 * 21;

const PRINTOUT_ROOM: usize = HEADER_ROOM + MOST_PORTS * (MOST_PORTS * (STRETCHES * LINE_ROOM));

pub type Text = ArrayString<PRINTOUT_ROOM>;
