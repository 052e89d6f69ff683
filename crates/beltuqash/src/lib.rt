// The calls, on byte slices and numbers. `specs/Calls` says what each call does; lent memory that a call only reads stays as it was. `beltuqash_c` has
// them for C. Sheet, store, mode and fuel come apart, as C gives them.
#![tactic(auto)]

pub mod checks;
pub mod runs;

ghost use Rattle.std.specs.Prelude.{◌≡◌};
ghost use Rattle.basis.specs.Answer.{answer_of, verdict_of};
ghost use Rattle.beltuqash.specs.Calls.{load, run, hand_out, Comes};

use basis::answer::Refusal;

/// Judges a sheet.
pub fn load(sheet: &[u8]) -> Result<(), Refusal>
    ensures tells { verdict_of result ≡ load sheet.now }
    ensures kept { sheet.exit.now ≡ sheet.entry.now }
{
    checks::judge_sheet(sheet)
}

/// Runs a sheet from a store in mode 0 (strict) or 1 (permissive), and writes the final store. Gives the units spent.
pub fn run(sheet: &[u8], store: &[u8], mode: u32, fuel: u32, out: &mut [u8]) -> Result<u32, Refusal>
    ensures yields { Comes (run sheet.now store.now mode fuel out.old) (answer_of result) out.new }
    ensures kept { (sheet.exit.now ≡ sheet.entry.now) × (store.exit.now ≡ store.entry.now) }
{
    checks::judge_run(sheet, store, mode, fuel, out.len())?;
    runs::run_from(sheet, store, mode, fuel, out)
}

/// Hands a reader what a request asks of a store, and writes the answer.
pub fn hand_out(
    sheet: &[u8],
    store: &[u8],
    reader: u32,
    request: &[u8],
    out: &mut [u8],
) -> Result<(), Refusal>
    ensures yields { Comes (hand_out sheet.now store.now reader request.now out.old) (verdict_of result) out.new }
    ensures kept { (sheet.exit.now ≡ sheet.entry.now) × (store.exit.now ≡ store.entry.now) × (request.exit.now ≡ request.entry.now) }
{
    checks::judge_hand_out(sheet, store, reader, request, out.len())?.give(out);
    Ok(())
}
