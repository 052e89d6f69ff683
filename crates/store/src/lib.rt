// The store's bytes: a count, then an entry per field. What a mark byte says, whether a store fits a sheet and its marks are right (8 and 9), a field
// read, a field written. No other crate knows how an entry lies in the bytes.
#![tactic(auto)]

ghost use Rattle.std.specs.Prelude.{◌≡◌, ◌∷◌, ◌≤◌, ◌<◌, length};
ghost use Rattle.std.proofs.lemmas.List.Edits.{sets};
ghost use Rattle.value.specs.Bytes.{bytes_of};
ghost use Rattle.store.specs.Marks.{level_of, is_partial, partial, mark_of, mode_of, mark_taken};
ghost use Rattle.store.specs.Stores.{FieldIn, entry_at, store_length, mark_at, value_of, store_fits, marks_right};

use value::Value;

// What a mark byte has more when it is partial.
const PARTIAL: u32 = 16;

// The bytes of an entry: the mark, then the value.
const ENTRY: usize = 5;

/// The bytes of the longest store, which has 64 fields.
pub const LONGEST: usize = 2 + 64 * ENTRY;

// ── modes ───────────────────────────────────────────────────────────────────────────────────

/// How a run goes on where a context does not lie at or below a field's level: it stops, or leaves the field partial.
#[derive(Clone, Copy, Debug, PartialEq, Eq)]
pub enum Mode {
    Strict,
    Permissive,
}

impl From<u32> for Mode {
    ghost from_gives = { λ number mode. mode ≡ mode_of number };

    #[tactic(auto, unfolding(crate::specs::Marks::mode_of))]
    fn from(number: u32) -> Mode {
        if number == 0 {
            Mode::Strict
        } else {
            Mode::Permissive
        }
    }
}

impl Mode {
    // Whether a run takes a mark: with a level of the sheet, and whole in a strict run.
    #[tactic(auto, unfolding(crate::specs::Marks::mark_known))]
    fn takes(self, mark: u32, levels: usize) -> bool
        ensures { result ≡ mark_taken self levels mark }
    {
        let known = mark <= 31 && ((mark % PARTIAL) as usize) < levels;
        match self {
            Mode::Strict => known && mark < PARTIAL,
            Mode::Permissive => known,
        }
    }
}

// ── marks ───────────────────────────────────────────────────────────────────────────────────

/// The level of a mark.
#[tactic(auto, unfolding(crate::specs::Marks::mark_of))]
pub fn level_of(mark: u32) -> usize
    requires { mark < 32 }
    ensures { (result ≡ level_of (mark_of mark)) × (result < 16) }
{
    (mark % PARTIAL) as usize
}

/// The level that any byte says, also one above 31, which no run takes. In place of `level_of` it costs a run up to 7 instructions a unit.
#[tactic(auto, unfolding(crate::specs::Marks::mark_of))]
pub fn level_said(mark: u32) -> u32
    ensures { result ≡ level_of (mark_of mark) }
{
    if mark < PARTIAL { mark } else { mark - PARTIAL }
}

/// Whether a mark is partial, by its byte.
#[tactic(auto, unfolding(crate::specs::Marks::mark_of))]
pub fn is_partial(mark: u32) -> bool
    ensures { result ≡ is_partial (mark_of mark) }
{
    PARTIAL <= mark
}

/// The partial mark at a level.
#[tactic(auto, unfolding(crate::specs::Marks::mark_of))]
pub fn partial_at(level: usize) -> u32
    requires { level < 16 }
    ensures { (mark_of result ≡ partial level) × (result < 32) }
{
    level as u32 + PARTIAL
}

// ── stores ──────────────────────────────────────────────────────────────────────────────────
// A store stays a slice: a struct of it would be made anew behind the checks, in a run, a hand-out and a report, each time from the fact asked here.

/// How long a store of so many fields is.
pub fn length(fields: usize) -> usize
    requires { fields ≤ 64 }
    ensures { result ≡ store_length fields }
{
    2 + fields * ENTRY
}

/// Whether a store's length and count are those of so many fields.
#[tactic(auto, unfolding(crate::specs::Stores::store_fits))]
pub fn fits(store: &[u8], fields: usize) -> bool
    requires { fields ≤ 64 }
    ensures { result ≡ store_fits fields store.now }
{
    store.len() == length(fields) && basis::word(store, 0) as usize == fields
}

/// Field i's mark.
pub fn mark_at(store: &[u8], i: usize) -> u32
    requires { FieldIn store.now i }
    ensures { (result ≡ mark_at store.now i) × (result < 256) }
{
    u32::from(store[2 + i * ENTRY])
}

/// Field i's value.
pub fn value_at(store: &[u8], i: usize) -> Value
    requires { FieldIn store.now i }
    ensures { result ≡ value_of store.now i }
{
    Value::read(store, 2 + i * ENTRY + 1)
}

/// Whether a run in a mode takes every field's mark.
pub fn marks_right(store: &[u8], mode: Mode, levels: usize, fields: usize) -> bool
    requires { store_length fields ≤ length store.now }
    ensures { result ≡ marks_right mode levels fields store.now }
{
    (0..fields).all(|i| mode.takes(mark_at(store, i), levels))
}

/// Writes field i's entry.
pub fn put_field(out: &mut [u8], i: usize, mark: u32, v: Value)
    requires { FieldIn out.old i × (mark < 256) }
    ensures { out.new ≡ sets out.old (entry_at i) (mark ∷ bytes_of v.n) }
{
    let at = 2 + i * ENTRY;
    out[at] = mark as u8;
    v.write(out, at + 1);
}
