// All that a run asks about marks, by their numbers. The run says which marks they are: `Inside/Meanings`. No other module of a run knows, and
// other marks are other cases here.
#![tactic(auto)]

pub mod level_marks;
pub mod parts;
pub mod words;

ghost use Rattle.std.specs.Prelude.{◌≡◌, true};
ghost use Rattle.levels.specs.Levels.{right};
ghost use Rattle.marks.specs.Inside.Meanings.{meaning, Constant, Sealed, Read, Joined, Entered, Stored, Joins, Enters, Stores, First, rows_in};

use basis::numbers::Number;
use levels::Levels;
use sections::Parts;
use store::Mode;
use value::Value;

/// A field in a run: its value, and its mark by its number.
#[derive(Clone, Copy)]
pub struct Cell {
    pub value: Value,
    pub mark: u32,
}

impl Cell {
    /// What stands in a work store beyond its fields.
    pub const BLANK: Cell = Cell {
        value: Value { n: 0 },
        mark: 0,
    };
}

/// Why and where a run stops.
#[derive(Clone, Copy, Debug, PartialEq, Eq)]
pub struct Stop {
    pub number: Number,
    pub place: u16,
}

/// A run, as it stays from its first command to its last. The numbers of its lowest and highest level are the marks of a constant and of a seal.
#[derive(Clone, Copy)]
pub struct Run<'a> {
    pub parts: Parts<'a>,
    pub mode: Mode,
    pub lowest: u32,
    pub highest: u32,
}

impl<'a> Run<'a> {
    /// The run over the parts of a sheet in a mode: 0 is strict.
    pub fn new(parts: Parts<'a>, mode: u32) -> Run<'a>
        requires { right parts.levels.now ≡ true }
        ensures { First parts.entry mode result }
    {
        let levels = Levels { rows: parts.levels };
        Run {
            parts,
            mode: Mode::from(mode),
            lowest: levels.lowest() as u32,
            highest: levels.highest() as u32,
        }
    }

    // The levels of its sheet.
    #[tactic(auto, unfolding(crate::specs::Inside::Meanings::meaning))]
    fn levels(&self) -> Levels<'a>
        requires { (meaning self.now).Askable }
        ensures { result.rows.now ≡ rows_in self.now }
    {
        Levels {
            rows: self.parts.levels,
        }
    }

    /// The mark of a constant.
    pub fn constant(&self) -> u32
        requires { (meaning self.now).Askable }
        ensures { Constant (meaning self.now) result }
    {
        self.lowest
    }

    /// The mark of a seal, whatever stood there.
    pub fn sealed(&self) -> u32
        requires { (meaning self.now).Askable }
        ensures { Sealed (meaning self.now) result }
    {
        self.highest
    }

    /// The mark of field i read, by the mark that it carries.
    pub fn read(&self, i: usize, mark: u32) -> u32
        requires { (meaning self.now).KnownMark mark }
        ensures { Read (meaning self.now) i mark result }
    {
        mark
    }

    /// The mark of an operator's result.
    pub fn join(&self, m: u32, k: u32) -> u32
        requires { Joins (meaning self.now) m k }
        ensures { Joined (meaning self.now) m k result }
    {
        level_marks::join(self.levels(), m, k)
    }

    /// The context after the test at node n, or a stop. A test at the context's own level needs no rows.
    pub fn enter(&self, context: u32, n: usize, m: u32) -> Result<u32, Stop>
        requires { Enters (meaning self.now) n context m }
        ensures { Entered (meaning self.now) n context m result }
    {
        if m == context {
            return Ok(m);
        }
        if store::is_partial(m) {
            return Err(Stop {
                number: Number::PartialTest,
                place: n as u16,
            });
        }
        Ok(level_marks::join(self.levels(), context, m))
    }

    /// The mark that the assignment at node n leaves on a field with the old mark, or a stop. A field at the context's own level needs no rows to
    /// say so, nor does one that keeps its mark.
    pub fn store(&self, context: u32, n: usize, old: u32, m: u32) -> Result<u32, Stop>
        requires { Stores (meaning self.now) n context old m }
        ensures { Stored (meaning self.now) n context old m result }
    {
        let levels = self.levels();
        if old == context || level_marks::at_or_below(levels, context, old) {
            if m == old {
                return Ok(m);
            }
            return Ok(level_marks::join(levels, m, context));
        }
        match self.mode {
            Mode::Strict => Err(Stop {
                number: Number::NotBelow,
                place: n as u16,
            }),
            Mode::Permissive => Ok(level_marks::lowered(levels, context, old)),
        }
    }
}
