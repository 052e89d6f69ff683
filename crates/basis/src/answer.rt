// What comes back from a call: the units spent, or a refusal; and the same as C has it, packed into the answer word.
ghost use Rattle.std.specs.Prelude.{◌≡◌, Some};
ghost use Rattle.basis.specs.Answer.{success, refusal, refused, answer_of, word_of, answer_in, answer_text};

use crate::numbers::{DONE, Number};
use std::error::Error;
use std::fmt;

/// What a call that refuses tells. Units are spent by a run that stops alone.
#[derive(Clone, Copy, Debug, PartialEq, Eq)]
pub struct Refusal {
    pub number: Number,
    pub place: u16,
    pub units: u32,
}

impl Refusal {
    /// A refusal at a place, before anything is spent.
    pub fn at(number: Number, place: u16) -> Refusal
        ensures { result ≡ record { number = number; place = place; units = 0 } }
    {
        Refusal {
            number,
            place,
            units: 0,
        }
    }
}

impl From<Number> for Refusal {
    ghost from_gives = { λ number r. r ≡ record { number = number; place = 0; units = 0 } };

    fn from(number: Number) -> Refusal {
        Refusal::at(number, 0)
    }
}

/// Number, place and units, a blank apart.
impl fmt::Display for Refusal {
    ghost output = { λ r. Some (answer_text (refused r)) };

    fn fmt<W: fmt::Write>(&self, f: &mut fmt::Formatter<W>) -> fmt::Result {
        write!(f, "{} {} {}", u8::from(self.number), self.place, self.units)
    }
}

impl Error for Refusal {}

/// What the answer word tells, of any bits: a number, `DONE` for success, a place and units.
#[derive(Clone, Copy, Debug, PartialEq, Eq)]
pub struct Answer {
    pub number: u8,
    pub place: u16,
    pub units: u32,
}

impl Answer {
    /// Success, with the units spent.
    pub fn success(units: u32) -> Answer
        ensures { result ≡ success units }
    {
        Answer {
            number: DONE,
            place: 0,
            units,
        }
    }

    /// A refusal before anything is spent.
    pub fn refusal(number: u8, place: u16) -> Answer
        ensures { result ≡ refusal number place }
    {
        Answer {
            number,
            place,
            ..Answer::success(0)
        }
    }

    /// The word of an answer.
    pub fn pack(self) -> u64
        ensures { result ≡ word_of self }
    {
        let place = u64::from(self.place) * 256;
        let units = u64::from(self.units) * 4294967296;
        u64::from(self.number) + place + units
    }

    /// The answer in a word.
    pub fn unpack(word: u64) -> Answer
        ensures { result ≡ answer_in word }
    {
        Answer {
            number: (word % 256) as u8,
            place: (word / 256 % 65536) as u16,
            units: (word / 4294967296) as u32,
        }
    }
}

impl From<Refusal> for Answer {
    ghost from_gives = { λ r answer. answer ≡ refused r };

    fn from(r: Refusal) -> Answer {
        Answer {
            number: r.number.into(),
            place: r.place,
            units: r.units,
        }
    }
}

impl From<Result<u32, Refusal>> for Answer {
    ghost from_gives = { λ given answer. answer ≡ answer_of given };

    fn from(given: Result<u32, Refusal>) -> Answer {
        match given {
            Ok(units) => Answer::success(units),
            Err(refused) => refused.into(),
        }
    }
}
