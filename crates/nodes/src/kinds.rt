// The kinds of a node, each with its number.
ghost use Rattle.std.specs.Prelude.{◌≡◌, ◌<◌, leb};
ghost use Rattle.nodes.specs.Nodes.{held_in, known, operator_zero};
ghost use Rattle.nodes.specs.Kinds.{number_of_kind, HasKind};

use crate::Held;

/// The kinds of a node, in the order of their numbers.
#[derive(Clone, Copy, Debug, PartialEq, Eq)]
pub enum Kind {
    Constant,
    Field,
    Operator,
    Not,
    Seal,
    Skip,
    Assign,
    Sequence,
    If,
    While,
}

/// A byte that is no kind's number.
#[derive(Clone, Copy, Debug, PartialEq, Eq)]
pub struct UnknownKind(pub u8);

impl TryFrom<u8> for Kind {
    type Error = UnknownKind;

    ghost try_from_gives = { HasKind };

    fn try_from(byte: u8) -> Result<Self, UnknownKind> {
        Ok(match byte {
            0 => Kind::Constant,
            1 => Kind::Field,
            2 => Kind::Operator,
            3 => Kind::Not,
            4 => Kind::Seal,
            5 => Kind::Skip,
            6 => Kind::Assign,
            7 => Kind::Sequence,
            8 => Kind::If,
            9 => Kind::While,
            _ => return Err(UnknownKind(byte)),
        })
    }
}

impl Kind {
    /// Whether it is an expression; the others are commands.
    pub fn is_expression(self) -> bool
        ensures { result ≡ leb (number_of_kind self) 4 }
    {
        matches!(
            self,
            Kind::Constant | Kind::Field | Kind::Operator | Kind::Not | Kind::Seal
        )
    }

    /// Whether it may have the operator byte: of operators 0 to 9 are known.
    #[tactic(auto, unfolding(crate::specs::Nodes::known))]
    pub(crate) fn knows(self, op: u8) -> bool
        ensures { result ≡ known (number_of_kind self) op }
    {
        self != Kind::Operator || op <= 9
    }

    /// Whether the operator byte is 0 in a kind without one.
    #[tactic(auto, unfolding(crate::specs::Nodes::operator_zero))]
    pub(crate) fn operator_zero(self, op: u8) -> bool
        ensures { result ≡ operator_zero (number_of_kind self) op }
    {
        self == Kind::Operator || op == 0
    }

    /// What its slot k holds.
    #[tactic(auto, unfolding(crate::specs::Nodes::held_in, crate::specs::Nodes::kinds))]
    pub fn holds(self, k: usize) -> Held
        requires { k < 3 }
        ensures { result ≡ held_in (number_of_kind self) k }
    {
        match (self, k) {
            (Kind::Constant, 0) => Held::Constant,
            (Kind::Field | Kind::Assign, 0) => Held::Field,
            (Kind::Operator, 0 | 1) => Held::Expression,
            (Kind::Not | Kind::Seal | Kind::If | Kind::While, 0) => Held::Expression,
            (Kind::Assign, 1) => Held::Expression,
            (Kind::Sequence, 0 | 1) => Held::Command,
            (Kind::If, 1 | 2) => Held::Command,
            (Kind::While, 1) => Held::Command,
            _ => Held::Nothing,
        }
    }
}
