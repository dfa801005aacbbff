// Standard input.
ghost use Rattle.std.specs.Prelude.{◌≤◌, length, IfOk};
ghost use Rattle.console.specs.Input.{ReadsOn};

use std::io::{Read, Result};

// Reads up to the end of the input or of the buffer. The library reads to an end into a `Vec` alone (`read_to_end`), and no program
// has a heap: so this loop.
#[tactic(auto, using(crate::proofs::InputLaws::read_on))]
pub fn read_input<R: Read>(input: &mut R, buffer: &mut [u8]) -> Result<usize>
    ensures within { IfOk result (λ n. n ≤ length buffer.new) }
    ensures bytes { IfOk result (λ n. ReadsOn (R.remaining input.old) (R.remaining input.new) buffer.new n) }
{
    let mut len = 0;
    while len < buffer.len() {
        match input.read(&mut buffer[len..])? {
            0 => return Ok(len),
            more => len += more,
        }
    }
    Ok(len)
}
