// The kinds of a formed sheet's nodes, as a run asks for them.
ghost use Rattle.std.specs.Prelude.{◌≡◌, ◌≤◌, ltb};
ghost use Rattle.nodes.specs.Nodes.{In, kind_at};
ghost use Rattle.nodes.specs.Kinds.{number_of_kind};

use nodes::kind_of;
use nodes::kinds::Kind;

// The kind of node n, a known one. While needs no arm of its own: with it and a last arm `unreachable!()`, units took 14 in 100 more.
pub(crate) fn known_kind(nodes: &[u8], n: usize) -> Kind
    requires { In nodes.now n × (kind_at nodes.now n ≤ 9) }
    ensures { number_of_kind result ≡ kind_at nodes.now n }
{
    match kind_of(nodes, n) {
        0 => Kind::Constant,
        1 => Kind::Field,
        2 => Kind::Operator,
        3 => Kind::Not,
        4 => Kind::Seal,
        5 => Kind::Skip,
        6 => Kind::Assign,
        7 => Kind::Sequence,
        8 => Kind::If,
        _ => Kind::While,
    }
}

// Whether it is a constant or a field.
pub(crate) fn is_leaf(kind: Kind) -> bool
    ensures { result ≡ ltb (number_of_kind kind) 2 }
{
    matches!(kind, Kind::Constant | Kind::Field)
}

// Whether it is none of the commands that hold commands. All kinds are listed: with `!matches!(kind, If | While)`, units took 3 to 5 in 100 more.
pub(crate) fn is_single(kind: Kind) -> bool
    ensures { result ≡ ltb (number_of_kind kind) 7 }
{
    match kind {
        Kind::Constant
        | Kind::Field
        | Kind::Operator
        | Kind::Not
        | Kind::Seal
        | Kind::Skip
        | Kind::Assign => true,
        Kind::Sequence | Kind::If | Kind::While => false,
    }
}
