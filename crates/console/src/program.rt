// A program that prints what it makes of its input.
ghost use Rattle.std.specs.Prelude.{length, OnOk};
ghost use Rattle.std.specs.Fn.{FnOnceReturnsAt};
ghost use Rattle.console.specs.Program.{IsEnough, PrintsOf};

use crate::failure::Failure;
use crate::input::read_input;
use std::convert::AsStr;
use std::io::{Read, Write};

// Prints the text of an input, as much of which is read as there is room for: the bytes past these don't change the text.
pub fn print_of<R: Read, W: Write, T: AsStr + Drop, F: FnOnce(&[u8]) -> T>(
    input: &mut R,
    room: &mut [u8],
    output: &mut W,
    text_of: F,
) -> Result<(), Failure>
    requires callable { F.IsAlwaysCallable text_of }
    requires enough { IsEnough (FnOnceReturnsAt F.FnOnce text_of) (length room.old) }
    ensures { OnOk result (PrintsOf (FnOnceReturnsAt F.FnOnce text_of) T.text (R.remaining input.old) (W.contents output.old) (W.contents output.new)) }
{
    let len = read_input(input, room).map_err(|error| Failure {
        what: "standard input",
        error,
    })?;
    let text = text_of(&room[..len]);
    output
        .write_all(text.as_str().as_bytes())
        .map_err(|error| Failure {
            what: "standard output",
            error,
        })?;
    Ok(())
}
