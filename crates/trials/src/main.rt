// Document 01's trials that run and are compared. Standard input has them one after another: the name's length (1 byte), the name, the sheet's
// length (2 bytes), the sheet. A line comes out for each: the name and what load answers, number, place and units.
#![tactic(auto)]

ghost use Rattle.std.specs.Prelude.{◌<◌, length, IfSome};

use input::read_full;
use std::io;
use std::io::Write;

fn main(rt: HostRuntime) -> io::Result<()> {
    let mut buffer = [0u8; 65536];
    let n = read_full(&mut rt.stdin(), &mut buffer)?;
    all_trials(&mut rt.stdout(), &buffer[..n])
}

// A trial, and the input after it.
#[derive(Clone, Copy)]
struct Trial<'a> {
    name: &'a [u8],
    sheet: &'a [u8],
    rest: &'a [u8],
}

// What is left of the input is the loop's own: an iterator of trials would be a struct for one `for`.
fn all_trials<W: Write>(output: &mut W, input: &[u8]) -> io::Result<()> {
    let mut rest = input;
    while let Some(trial) = next_trial(rest) {
        output.write_all(trial.name)?;
        match beltuqash::load(trial.sheet) {
            Ok(()) => writeln!(output, ": 0 0 0")?,
            Err(refusal) => writeln!(output, ": {refusal}")?,
        }
        rest = trial.rest;
    }
    Ok(())
}

// The trial at the front. One that is cut ends the input.
fn next_trial(input: &[u8]) -> Option<Trial<'_>>
    ensures { IfSome result (λ trial. length trial.rest.now < length input.now) }
{
    let (&name_length, rest) = input.split_first()?;
    let (name, rest) = rest.split_at_checked(usize::from(name_length))?;
    let (&sheet_length, rest) = rest.split_first_chunk::<2>()?;
    let (sheet, rest) = rest.split_at_checked(usize::from(u16::from_le_bytes(sheet_length)))?;
    Some(Trial { name, sheet, rest })
}
