// What comes back from a run, as text: `done` and units with a line per field, or `refused`, number, place and units.
ghost use Rattle.std.specs.Prelude.{◌≤◌, ◌≡◌, length};
ghost use Rattle.basis.specs.Answer.{refused};
ghost use Rattle.basis.specs.Numbers.{done};
ghost use Rattle.report.specs.Inside.Given.{Final};
ghost use Rattle.report.specs.Report.{longest, Begins};
ghost use Rattle.report.specs.Text.{done_text, refused_text, printed};

use crate::field::put_lines;
use crate::number::{put_byte, put_part, put_text};
use crate::text::Text;
use basis::answer::{Answer, Refusal};
use basis::numbers::DONE;

/// `done` and units, then a line per field. Names and store stand apart: of slices in a struct a proof is not told that their items are bytes, which
/// bounds a line.
pub fn print_done(units: u32, fields: &[u8], store: &[u8], out: &mut [u8]) -> usize
    requires { Final fields.now store.now × (longest ≤ length out.old) }
    ensures { Begins out.new (done_text units fields.now store.now) result }
{
    let done = put_text(out, 0, b"done");
    let spent = put_part(out, done, units);
    let head = put_byte(out, spent, b'\n');
    put_lines(out, head, fields, store)
}

/// `refused`, number, place and units.
pub fn print_refused(answer: Answer, out: &mut [u8]) -> usize
    requires { longest ≤ length out.old }
    ensures { Begins out.new (refused_text answer) result }
{
    let refused = put_text(out, 0, b"refused");
    let number = put_part(out, refused, u32::from(answer.number));
    let place = put_part(out, number, u32::from(answer.place));
    let units = put_part(out, place, answer.units);
    put_byte(out, units, b'\n')
}

/// The text of an answer. What a run that is done gave is at hand.
pub fn print(answer: Answer, fields: &[u8], store: &[u8], out: &mut [u8]) -> usize
    requires { (answer.number ≡ done → Final fields.now store.now) × (longest ≤ length out.old) }
    ensures { Begins out.new (printed answer fields.now store.now) result }
{
    if answer.number == DONE {
        print_done(answer.units, fields, store, out)
    } else {
        print_refused(answer, out)
    }
}

/// What `print_done` puts, as a text of its own.
pub fn done_text(units: u32, fields: &[u8], store: &[u8]) -> Text
    requires { Final fields.now store.now }
    ensures { result ≡ done_text units fields.now store.now }
{
    let mut text = Text::new();
    text.len = print_done(units, fields, store, &mut text.bytes);
    text
}

/// What `print_refused` puts of a refusal, as a text of its own.
pub fn refused_text(refusal: Refusal) -> Text
    ensures { result ≡ refused_text (refused refusal) }
{
    let mut text = Text::new();
    text.len = print_refused(refusal.into(), &mut text.bytes);
    text
}

#[cfg(test)]
mod tests {
    use super::*;
    use basis::numbers::Number;

    #[test]
    fn texts_of_runs(rt: HostRuntime) {
        let one = done_text(1, b"q\0\0\0\0\0\0\0", &[1, 0, 1, 42, 0, 0, 0]);
        assert_eq!(rt; one.as_slice(), b"done 1\nq 1 whole 42\n".as_slice());

        let store = [2, 0, 0, 5, 0, 0, 0, 18, 255, 255, 255, 255];
        let two = done_text(60, b"width\0\0\0pricelow", &store);
        let lines = b"done 60\nwidth 0 whole 5\npricelow 2 partial -1\n";
        assert_eq!(rt; two.as_slice(), lines.as_slice());
    }

    #[test]
    fn texts_of_refusals(rt: HostRuntime) {
        let cut = refused_text(Number::SheetLength.into());
        assert_eq!(rt; cut.as_slice(), b"refused 1 0 0\n".as_slice());

        let stopped = refused_text(Refusal {
            number: Number::DivisorZero,
            place: 1023,
            units: 40,
        });
        assert_eq!(rt; stopped.as_slice(), b"refused 14 1023 40\n".as_slice());
    }
}
