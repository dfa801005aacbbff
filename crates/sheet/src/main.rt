// Reads a plan's text from standard input and writes the plan file to standard output. N and T are the arguments.
#![tactic(auto)]

ghost use Rattle.std.specs.Prelude.{◌≡◌, IfOk, IfSome};
ghost use Rattle.sheet.specs.Sheet.{sheet_of};

use crate::argument::read_argument;
use crate::plan_file::plan_file;
use arrayvec::{ArrayString, ArrayVec};
use console::append::refusal_line;
use console::failure::{Failure, fail};
use console::input::read_input;
use console::text::REFUSAL_ROOM;
use planfile::LONGEST_FILE;
use plantext::MOST_TEXT;
use refusal::Refusal;
use std::env::{Env, FillError};
use std::io::{self, Read};

mod argument;
mod plan_file;

// The longest argument that Linux hands over.
const LONGEST_ARGUMENT: usize = 131072;

// One byte more than the longest text has: the bytes past these change nothing (proofs/SheetLaws.antt).
const MOST_INPUT: usize = MOST_TEXT + 1;

fn usage(rt: &HostRuntime) {
    let _ = eprintln!(rt; "use: sheet N T <plan.csv >plan.lsp");
}

#[tactic(auto, using(console::proofs::TextLaws::refusal_short))]
fn refuse(rt: &HostRuntime, verdict: Result<(), Refusal>) {
    let mut line = ArrayString::<REFUSAL_ROOM>::new();
    refusal_line(&mut line, verdict);
    let _ = rt.stderr().write_all(line.as_bytes());
}

// Whether there is an argument at a place, as long as it may be.
fn is_given(rt: &HostRuntime, place: usize) -> bool {
    !matches!(rt.arg(place, &mut []), Err(FillError::NotPresent))
}

// The number at a place; a missing argument is none.
fn argument_at(rt: &HostRuntime, place: usize) -> Option<u32> {
    let mut text = [0u8; LONGEST_ARGUMENT];
    let len = rt.arg(place, &mut text).ok()?;
    read_argument(&text[..len])
}

// N and T, if there are two arguments and both are numbers.
fn arguments(rt: &HostRuntime) -> Option<(u32, u32)> {
    if is_given(rt, 3) {
        return None;
    }
    let n = argument_at(rt, 1)?;
    let t = argument_at(rt, 2)?;
    Some((n, t))
}

// The plan file of the text that an input has.
fn read_sheet<R: Read>(
    input: &mut R,
    n: u32,
    t: u32,
) -> io::Result<Result<ArrayVec<u8, LONGEST_FILE>, Refusal>>
    ensures { IfOk result (λ file. IfSome (R.remaining input.old) (λ text. file ≡ sheet_of n t text)) }
{
    let mut text = [0u8; MOST_INPUT];
    let len = read_input(input, &mut text)?;
    Ok(plan_file(n as usize, t, &text[..len]))
}

// Standard input to standard output.
fn convert(rt: &HostRuntime, n: u32, t: u32) -> Result<(), Failure> {
    let sheet = read_sheet(&mut rt.stdin(), n, t).map_err(|error| Failure {
        what: "standard input",
        error,
    })?;
    match sheet {
        Ok(file) => rt.write_all(&file).map_err(|error| Failure {
            what: "standard output",
            error,
        }),
        Err(refusal) => {
            refuse(rt, Err(refusal));
            Ok(())
        }
    }
}

fn main(rt: HostRuntime) {
    let Some((n, t)) = arguments(&rt) else {
        return usage(&rt);
    };
    if let Err(failure) = convert(&rt, n, t) {
        fail(&rt, failure.what, failure.error);
    }
}
