// What load refuses a sheet with. `specs/Verdict` gives each case its number in document 01's table.
ghost use Rattle.std.specs.Prelude.{◌≡◌};
ghost use Rattle.basis.specs.Numbers.{number_of};
ghost use Rattle.sections.specs.Verdict.{fault_number, error_number, error_place, verdict_number, verdict_place};

use basis::numbers::{DONE, Number};

/// The first thing that is wrong with a sheet.
#[derive(Clone, Copy, Debug, PartialEq, Eq)]
pub enum SheetError {
    /// the sheet ends too soon or has bytes left
    Length,
    /// a count outside its limits
    Count,
    /// levels not as they must be
    Levels,
    /// a bad or repeated name
    Name,
    /// the lowest node at fault, and the first of its faults
    Node(Fault, usize),
    /// a node not used once, or the last not a command
    Uses,
    /// depth over 64
    Depth,
}

/// What is wrong with a node, in the order in which it is told.
#[derive(Clone, Copy, Debug, PartialEq, Eq)]
pub enum Fault {
    /// a kind or an operator that is not known
    Unknown,
    /// an unused place, or the operator byte in a kind without one, that is not 0
    Unused,
    /// a child or index number that is out of range or not lower
    Range,
    /// a child of the wrong sort
    Sort,
}

impl Fault {
    /// Its number in document 01's table.
    pub fn number(self) -> Number
        ensures { number_of result ≡ fault_number self }
    {
        match self {
            Fault::Unknown => Number::NodeUnknown,
            Fault::Unused => Number::NodeUnused,
            Fault::Range => Number::NodeRange,
            Fault::Sort => Number::NodeSort,
        }
    }
}

impl SheetError {
    /// Its number in document 01's table.
    pub fn number(self) -> Number
        ensures { number_of result ≡ error_number self }
    {
        match self {
            SheetError::Length => Number::SheetLength,
            SheetError::Count => Number::CountOutside,
            SheetError::Levels => Number::LevelsWrong,
            SheetError::Name => Number::NameWrong,
            SheetError::Node(fault, _) => fault.number(),
            SheetError::Uses => Number::NotUsedOnce,
            SheetError::Depth => Number::TooDeep,
        }
    }

    /// Its place: that of a node's fault is the node's number.
    pub fn place(self) -> usize
        ensures { result ≡ error_place self }
    {
        match self {
            SheetError::Node(_, n) => n,
            _ => 0,
        }
    }
}

/// The number of a verdict: of a sheet that passes it is that of success.
pub fn number(verdict: Result<(), SheetError>) -> u8
    ensures { result ≡ verdict_number verdict }
{
    match verdict {
        Ok(()) => DONE,
        Err(wrong) => wrong.number().into(),
    }
}

/// The place of a verdict: a sheet that passes has none.
pub fn place(verdict: Result<(), SheetError>) -> usize
    ensures { result ≡ verdict_place verdict }
{
    match verdict {
        Ok(()) => 0,
        Err(wrong) => wrong.place(),
    }
}
