// Bytes, texts and numbers, put into a lent buffer from an offset on. Each function gives the offset after what it put. Buffer and offset stand apart:
// a type with a buffer of its own would promise a text up to that buffer's length, and these promise it in any buffer that has room.
ghost use Rattle.std.specs.Prelude.{◌∷◌, []};
ghost use Rattle.report.specs.Inside.Putting.{Put};
ghost use Rattle.report.specs.Text.{decimal, part, signed};

use value::Value;

/// A byte, if there is room for it: so no function that puts a text has to ask for room.
pub fn put_byte(out: &mut [u8], at: usize, byte: u8) -> usize
    ensures { Put out.old out.new at (byte ∷ []) result }
{
    if at < out.len() {
        out[at] = byte;
        at + 1
    } else {
        at
    }
}

/// A text, if there is room for all of it.
pub fn put_text(out: &mut [u8], at: usize, text: &[u8]) -> usize
    ensures { Put out.old out.new at text.now result }
{
    if at <= out.len() && text.len() <= out.len() - at {
        let end = at + text.len();
        out[at..end].copy_from_slice(text);
        end
    } else {
        at
    }
}

/// A number's digits: those before the last, then the last. No `write!`, which may fail as far as its contract says, where this cannot.
pub fn put_decimal(out: &mut [u8], at: usize, n: u32) -> usize
    ensures { Put out.old out.new at (decimal n) result }
{
    let last = if n >= 10 {
        put_decimal(out, at, n / 10)
    } else {
        at
    };
    put_byte(out, last, b'0' + (n % 10) as u8)
}

/// A number as a part of a line, after a blank.
pub fn put_part(out: &mut [u8], at: usize, n: u32) -> usize
    ensures { Put out.old out.new at (part n) result }
{
    let digits = put_byte(out, at, b' ');
    put_decimal(out, digits, n)
}

/// A value, with a minus sign below 0.
pub fn put_signed(out: &mut [u8], at: usize, value: Value) -> usize
    ensures { Put out.old out.new at (signed value.n) result }
{
    let digits = if value.n < 0 {
        put_byte(out, at, b'-')
    } else {
        at
    };
    put_decimal(out, digits, value.n.unsigned_abs())
}
