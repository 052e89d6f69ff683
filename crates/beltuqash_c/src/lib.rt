// The calls as C makes them: those of `beltuqash`, each with its answer in one word.
#![tactic(auto)]

ghost use Rattle.std.specs.Prelude.{◌≡◌};
ghost use Rattle.basis.specs.Answer.{word_of, answer_of};
ghost use Rattle.beltuqash.specs.Calls.{load, run, hand_out, Tells, Yields};

use basis::answer::{Answer, Refusal};

/// Judges a sheet.
#[unsafe(no_mangle)]
pub extern "C" fn beltuqash_load(sheet: &[u8]) -> u64
    ensures tells { Tells (load sheet.now) result }
    ensures kept { sheet.exit.now ≡ sheet.entry.now }
{
    word(beltuqash::load(sheet).map(|()| 0))
}

/// Runs a sheet from a store in mode 0 (strict) or 1 (permissive), and writes the final store.
#[unsafe(no_mangle)]
pub extern "C" fn beltuqash_run(
    sheet: &[u8],
    store: &[u8],
    mode: u32,
    fuel: u32,
    out: &mut [u8],
) -> u64
    ensures yields { Yields (run sheet.now store.now mode fuel out.old) result out.new }
    ensures kept { (sheet.exit.now ≡ sheet.entry.now) × (store.exit.now ≡ store.entry.now) }
{
    word(beltuqash::run(sheet, store, mode, fuel, out))
}

/// Hands a reader what a request asks of a store, and writes the answer.
#[unsafe(no_mangle)]
pub extern "C" fn beltuqash_hand_out(
    sheet: &[u8],
    store: &[u8],
    reader: u32,
    request: &[u8],
    out: &mut [u8],
) -> u64
    ensures yields { Yields (hand_out sheet.now store.now reader request.now out.old) result out.new }
    ensures kept { (sheet.exit.now ≡ sheet.entry.now) × (store.exit.now ≡ store.entry.now) × (request.exit.now ≡ request.entry.now) }
{
    word(beltuqash::hand_out(sheet, store, reader, request, out).map(|()| 0))
}

// The word of an answer: number, place and units.
fn word(answer: Result<u32, Refusal>) -> u64
    ensures { result ≡ word_of (answer_of answer) }
{
    Answer::from(answer).pack()
}
