// A run once all checks have passed.
ghost use Rattle.std.specs.Prelude.{◌≡◌, ℕ, ◌≤◌, List, length};
ghost use Rattle.basis.specs.Answer.{answer_of, refused};
ghost use Rattle.marks.specs.Inside.Words.{left_in};
ghost use Rattle.flow.specs.Inside.Tasks.{stop_of, Told};
ghost use Rattle.beltuqash.specs.Calls.{ended, run_from, Comes};
ghost use Rattle.beltuqash.specs.Inside.Given.{Given};

use basis::answer::Refusal;
use basis::numbers::Number;
use marks::words::Word;
use marks::{Cell, Run};
use sections::Parts;

/// Runs a sheet that passes from a store that fits it, on a work store: only a run that is done writes. The work store lies on the stack
/// once the sheet is judged, and not below that.
#[inline(never)]
pub fn run_from(
    sheet: &[u8],
    store: &[u8],
    mode: u32,
    fuel: u32,
    out: &mut [u8],
) -> Result<u32, Refusal>
    requires { Given sheet.now store.now mode fuel (length out.old) }
    ensures { Comes (run_from sheet.now store.now mode fuel out.old) (answer_of result) out.new }
{
    let run = Run::new(Parts::of(sheet), mode);
    let fields = run.parts.fields.len() / 8;
    let last = run.parts.nodes.len() / 8 - 1;
    let mut work = [Cell::BLANK; 64];
    flow::work::fetch(store, &mut work, fields);
    let word = flow::commands::execute(&run, &mut work, last, run.lowest, fuel);
    if word.is_stop() {
        return Err(stopped(word, fuel));
    }
    flow::work::deliver(&work, out, fields);
    Ok(fuel - word.left())
}

// What a run that stops comes to.
fn stopped(word: Word, fuel: u32) -> Refusal
    requires { Told word × (left_in word ≤ fuel) }
    ensures { (fields : ℕ) (out : List ℕ) → refused result ≡ (ended fields fuel out (stop_of word)).answer }
{
    Refusal {
        number: Number::try_from(word.number()).unwrap(),
        place: word.place(),
        units: fuel - word.left(),
    }
}
