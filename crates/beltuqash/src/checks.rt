// The checks of each call, in the order of document 01's table: what the list of `specs/Calls` tells. What C gives comes apart, and mode as its number.
ghost use Rattle.std.specs.Prelude.{◌++◌, IfOk};
ghost use Rattle.basis.specs.Checks.{Judges};
ghost use Rattle.store.specs.declared.Mode.TheVariants.{Permissive};
ghost use Rattle.sheet.specs.Inside.Loaded.{Loaded};
ghost use Rattle.beltuqash.specs.Calls.{sheet_checks, store_checks, run_checks, hand_out_checks, request_checks};
ghost use Rattle.beltuqash.specs.Inside.Given.{Taken, Asks};

use basis::answer::Refusal;
use basis::numbers::Number;
use handout::answers::HandOut;
use handout::requests::Request;
use levels::Levels;
use sections::Parts;
use store::Mode;

/// What load answers.
pub fn judge_sheet(sheet: &[u8]) -> Result<(), Refusal>
    ensures { Judges (sheet_checks sheet.now) result }
{
    // No `From` and `?`, and no `map_err`: that the place fits is known of this error, and neither a trait nor a closure is told so.
    match sheet::load(sheet) {
        Ok(()) => Ok(()),
        Err(wrong) => Err(Refusal::at(wrong.number(), wrong.place() as u16)),
    }
}

// A store, beside a sheet that passes: 8 and 9.
fn judge_store(sheet: &[u8], store: &[u8], mode: Mode) -> Result<(), Refusal>
    requires { Loaded sheet.now }
    ensures { Judges (store_checks sheet.now store.now mode) result }
{
    let parts = Parts::of(sheet);
    let fields = parts.fields.len() / 8;
    if !store::fits(store, fields) {
        return Err(Number::StoreMisfit.into());
    }
    if !store::marks_right(store, mode, parts.levels.len() / 2, fields) {
        return Err(Number::MarkWrong.into());
    }
    Ok(())
}

// A sheet and a store.
fn judge_both(sheet: &[u8], store: &[u8], mode: Mode) -> Result<(), Refusal>
    ensures { Judges (sheet_checks sheet.now ++ store_checks sheet.now store.now mode) result }
{
    judge_sheet(sheet)?;
    judge_store(sheet, store, mode)
}

/// A run, whose output has so much room.
pub fn judge_run(
    sheet: &[u8],
    store: &[u8],
    mode: u32,
    fuel: u32,
    room: usize,
) -> Result<(), Refusal>
    ensures { Judges (run_checks sheet.now store.now mode fuel room) result }
{
    if (1 < mode) | (1000000 < fuel) {
        return Err(Number::ModeOrFuel.into());
    }
    judge_both(sheet, store, Mode::from(mode))?;
    if room < store::length(Parts::of(sheet).fields.len() / 8) {
        return Err(Number::OutShort.into());
    }
    Ok(())
}

/// A hand-out, whose answer has so much room. It takes any mark that the sheet knows, as a permissive run does.
pub fn judge_hand_out<'a>(
    sheet: &'a [u8],
    store: &'a [u8],
    reader: u32,
    request: &'a [u8],
    room: usize,
) -> Result<HandOut<'a>, Refusal>
    ensures told { Judges (hand_out_checks sheet.now store.now reader request.now room) result }
    ensures asked { IfOk result (λ h. Asks sheet.now store.now reader request.now h) }
{
    judge_both(sheet, store, Mode::Permissive)?;
    judge_request(sheet, store, reader, request, room)
}

// A request, of a store that a hand-out takes: 17, 11 and 18.
fn judge_request<'a>(
    sheet: &'a [u8],
    store: &'a [u8],
    reader: u32,
    request: &'a [u8],
    room: usize,
) -> Result<HandOut<'a>, Refusal>
    requires { Taken sheet.now store.now Permissive }
    ensures told { Judges (request_checks sheet.now store.now reader request.now room) result }
    ensures asked { IfOk result (λ h. Asks sheet.now store.now reader request.now h) }
{
    let parts = Parts::of(sheet);
    let reader = reader as usize;
    let Some(request) = Request::new(request, parts.fields.len() / 8) else {
        return Err(Number::ReaderOrRequest.into());
    };
    if parts.levels.len() / 2 <= reader {
        return Err(Number::ReaderOrRequest.into());
    }
    let hand_out = HandOut {
        levels: Levels { rows: parts.levels },
        store,
        reader,
        request,
    };
    if room < hand_out.length() {
        return Err(Number::OutShort.into());
    }
    match hand_out.first_refusing() {
        Some(position) => Err(Refusal::at(Number::PartialAsked, position as u16)),
        None => Ok(hand_out),
    }
}
