// What comes back, by document 01's table.
ghost use Rattle.std.specs.Prelude.{◌≡◌};
ghost use Rattle.basis.specs.Numbers.{number_of, Decodes};

/// Success.
pub const DONE: u8 = 0;

/// The refusals, each with its number. What is wrong with a node has 19 to 22; 5 is never given, and 0 is success.
#[derive(Clone, Copy, Debug, PartialEq, Eq)]
pub enum Number {
    SheetLength = 1,
    CountOutside = 2,
    LevelsWrong = 3,
    NameWrong = 4,
    NotUsedOnce = 6,
    TooDeep = 7,
    StoreMisfit = 8,
    MarkWrong = 9,
    ModeOrFuel = 10,
    OutShort = 11,
    FuelSpent = 12,
    OutOfRange = 13,
    DivisorZero = 14,
    NotBelow = 15,
    PartialTest = 16,
    ReaderOrRequest = 17,
    PartialAsked = 18,
    NodeUnknown = 19,
    NodeUnused = 20,
    NodeRange = 21,
    NodeSort = 22,
}

impl From<Number> for u8 {
    ghost from_gives = { λ number byte. byte ≡ number_of number };

    fn from(number: Number) -> u8 {
        number as u8
    }
}

/// A byte that is no refusal's number.
#[derive(Clone, Copy, Debug, PartialEq, Eq)]
pub struct UnknownNumber(pub u8);

impl TryFrom<u8> for Number {
    type Error = UnknownNumber;

    ghost try_from_gives = { Decodes };

    fn try_from(byte: u8) -> Result<Self, UnknownNumber> {
        Ok(match byte {
            1 => Number::SheetLength,
            2 => Number::CountOutside,
            3 => Number::LevelsWrong,
            4 => Number::NameWrong,
            6 => Number::NotUsedOnce,
            7 => Number::TooDeep,
            8 => Number::StoreMisfit,
            9 => Number::MarkWrong,
            10 => Number::ModeOrFuel,
            11 => Number::OutShort,
            12 => Number::FuelSpent,
            13 => Number::OutOfRange,
            14 => Number::DivisorZero,
            15 => Number::NotBelow,
            16 => Number::PartialTest,
            17 => Number::ReaderOrRequest,
            18 => Number::PartialAsked,
            19 => Number::NodeUnknown,
            20 => Number::NodeUnused,
            21 => Number::NodeRange,
            22 => Number::NodeSort,
            _ => return Err(UnknownNumber(byte)),
        })
    }
}
