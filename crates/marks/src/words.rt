// What recursive functions answer, in one number: so it is handed on in a register. `Inside/Words` gives words their meaning and lists their
// layouts; no other module knows them. `Result<Cell, Stop>` was tried: 64 levels take up to 13,536 bytes of stack with it, and 4,720 with words.
ghost use Rattle.std.specs.Prelude.{◌≡◌, ◌<◌, ℕ, leb};
ghost use Rattle.basis.specs.Numbers.{number_of};
ghost use Rattle.marks.specs.Inside.Words.{stop_from, Half, Place, value_in, mark_in, Holds, Stops, left_in, place_in, number_in, Stopped};

use basis::numbers::Number;
use std::marker::Model;
use value::Value;

// Words from here on are stops.
const STOP: u64 = 9223372036854775808;

// Where the upper half of a word begins, and a stop's number.
const UPPER: u64 = 4294967296;

const NUMBER: u64 = 72057594037927936;

// So many places and numbers there is room for.
const PLACES: u64 = 65536;

const NUMBERS: u64 = 128;

/// A value with a mark's number, the fuel left, or a stop.
#[derive(Clone, Copy)]
pub struct Word(u64);

impl Model for Word {
    ghost Value = { ℕ };

    ghost view = { λ w. w.0 };

    ghost inverse = { λ n. record { 0 = n } };
}

impl Word {
    /// A value and a mark's number.
    pub fn new(v: Value, mark: u32) -> Word
        ensures { Holds v mark result }
    {
        Word(v.bits() as u64 + mark as u64 * UPPER)
    }

    /// The fuel left.
    pub fn done(left: u32) -> Word
        ensures { result ≡ left }
    {
        Word(left as u64)
    }

    /// Why and where a run stops.
    pub fn stop(number: Number, place: usize) -> Word
        requires { Place place }
        ensures { Stopped (number_of number) place 0 result }
    {
        Word(STOP + u64::from(u8::from(number)) * NUMBER + place as u64 * UPPER)
    }

    pub fn is_stop(self) -> bool
        ensures { result ≡ leb stop_from self }
    {
        STOP <= self.0
    }

    /// The value.
    pub fn value(self) -> Value
        ensures { result ≡ value_in self }
    {
        Value::of_bits((self.0 % UPPER) as u32)
    }

    /// The mark's number.
    pub fn mark(self) -> u32
        ensures { result ≡ mark_in self }
    {
        (self.0 / UPPER) as u32
    }

    /// A stop with the fuel left.
    pub fn with_left(self, left: u32) -> Word
        requires { Stops self }
        ensures { Stopped (number_in self) (place_in self) left result }
    {
        Word(self.0 / UPPER * UPPER + left as u64)
    }

    /// The number, the place and the fuel left of a stop.
    pub fn number(self) -> u8
        ensures { result ≡ number_in self }
    {
        (self.0 / NUMBER % NUMBERS) as u8
    }

    pub fn place(self) -> u16
        ensures { result ≡ place_in self }
    {
        (self.0 / UPPER % PLACES) as u16
    }

    pub fn left(self) -> u32
        ensures { result ≡ left_in self }
    {
        (self.0 % UPPER) as u32
    }
}
