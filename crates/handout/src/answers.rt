// What a request gets from a store: the first field that refuses all of it, or else the answer, written.
ghost use Rattle.std.specs.Prelude.{◌≡◌, false, ◌+◌, ◌≤◌, ◌<◌, length, MatchOption};
ghost use Rattle.levels.specs.Lattice.{lattice};
ghost use Rattle.store.specs.Marks.{level_of, mark_of};
ghost use Rattle.store.specs.Stores.{mark_at, store_of};
ghost use Rattle.handout.specs.Requests.{asked_count};
ghost use Rattle.handout.specs.Answers.{answer_entry, answer_length, shown, refuses, first_refusing};
ghost use Rattle.handout.specs.Inside.Asks.{AsksAs, answer_given};

use crate::requests::Request;
use levels::Levels;
use store::{is_partial, level_of, mark_at, value_at};

// The bytes of an answer's entry: shown or not, then the value.
const ENTRY: usize = 5;

/// What a reader asks of a store: he stands at one of the levels of right rows, and they know the marks of the store's fields.
#[derive(Clone, Copy)]
pub struct HandOut<'a> {
    pub levels: Levels<'a>,
    pub store: &'a [u8],
    pub reader: usize,
    pub request: Request<'a>,
    pub ghost asks: { AsksAs levels.rows.now store.now request.fields reader },
}

impl<'a> HandOut<'a> {
    /// How long the answer is.
    pub fn length(&self) -> usize
        ensures { result ≡ answer_length self.now.request.bytes.now }
    {
        2 + self.request.count() * ENTRY
    }

    // Whether a field's level lies at or below the reader.
    fn at_or_below(&self, field: usize) -> bool
        requires { field < self.now.request.fields }
        ensures { result ≡ (lattice self.now.levels.rows.now).le (level_of (mark_of (mark_at self.now.store.now field))) self.now.reader }
    {
        self.levels
            .at_or_below(level_of(mark_at(self.store, field)), self.reader)
    }

    // Whether a field refuses the request: it is partial, at or below the reader.
    fn refuses(&self, field: usize) -> bool
        requires { field < self.now.request.fields }
        ensures { result ≡ refuses (lattice self.now.levels.rows.now) self.now.reader (store_of self.now.store.now field) }
    {
        is_partial(mark_at(self.store, field)) && self.at_or_below(field)
    }

    /// The first position that asks for a field that refuses.
    pub fn first_refusing(&self) -> Option<usize>
        ensures { let count = asked_count self.now.request.bytes.now in
            let first = first_refusing (lattice self.now.levels.rows.now) self.now.reader (store_of self.now.store.now) self.now.request.bytes.now in
            MatchOption result (first ≡ count) (λ position. (first ≡ position) × (position < count)) }
    {
        (0..self.request.count()).find(|&position| self.refuses(self.request.field(position)))
    }

    // Writes the entry of a field that does not refuse: 1 and the value if its level lies at or below the reader, else 0 and value 0.
    fn show(&self, field: usize, entry: &mut [u8])
        requires known { field < self.now.request.fields }
        requires passes { refuses (lattice self.now.levels.rows.now) self.now.reader (store_of self.now.store.now field) ≡ false }
        requires size { length entry.old ≡ answer_entry }
        ensures { entry.new ≡ shown (lattice self.now.levels.rows.now) self.now.reader (store_of self.now.store.now field) }
    {
        if self.at_or_below(field) {
            entry[0] = 1;
            value_at(self.store, field).write(entry, 1);
        } else {
            entry.fill(0);
        }
    }

    /// Writes the answer to a request that no field refuses to the front of `out`.
    pub fn give(&self, out: &mut [u8])
        requires none_refuses { asked_count self.now.request.bytes.now ≤ first_refusing (lattice self.now.levels.rows.now) self.now.reader (store_of self.now.store.now) self.now.request.bytes.now }
        requires room { answer_length self.now.request.bytes.now ≤ length out.old }
        ensures { out.new ≡ answer_given self.now.levels.rows.now self.now.store.now self.now.reader self.now.request.bytes.now out.old }
    {
        let count = self.request.count();
        out[0] = count as u8;
        out[1] = 0;
        for position in 0..count {
            let at = 2 + position * ENTRY;
            self.show(self.request.field(position), &mut out[at..at + ENTRY]);
        }
    }
}
