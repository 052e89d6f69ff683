// What an expression gives, by recursion on the node number. The run and the work store come behind a reference each, and the answer is a
// word: a frame is a few registers. A constant or a field needs no call, an operator on two of them no frame: `eval` calls itself
// below a not or a seal, so the compiler keeps it apart from `expression`. Run, work store and node stay apart, a register each: a struct of
// them would lie in memory. A leaf and an operator answer words as well: cells were tried, and a unit took 2 to 5 in 100 more.
ghost use Rattle.std.specs.Prelude.{◌<◌};
ghost use Rattle.nodes.specs.Nodes.{In, kind_at};
ghost use Rattle.marks.specs.Inside.Words.{Place, mark_in, Goes};
ghost use Rattle.marks.specs.Inside.Meanings.{meaning, Joins};
ghost use Rattle.flow.specs.Inside.Tasks.{ExpIn, Evaluated, Operated};

use crate::kinds::{is_leaf, known_kind};
use basis::numbers::Number;
use marks::parts::constant_at;
use marks::words::Word;
use marks::{Cell, Run};
use nodes::kinds::Kind;
use nodes::{op_of, slot};
use value::{ArithmeticError, Operator};

// The operator at node n, between the values in two words.
fn operate(run: &Run, left: Word, n: usize, right: Word) -> Word
    requires { Joins (meaning run.now) (mark_in left) (mark_in right) × In run.now.parts.nodes.now n × Place n }
    ensures { Operated run.now n left right result }
{
    match Operator::from(op_of(run.parts.nodes, n)).apply(left.value(), right.value()) {
        Ok(v) => Word::new(v, run.join(left.mark(), right.mark())),
        Err(ArithmeticError::OutOfRange(_)) => Word::stop(Number::OutOfRange, n),
        Err(ArithmeticError::DivisorZero) => Word::stop(Number::DivisorZero, n),
    }
}

// The constant or the field at node n.
fn leaf(run: &Run, work: &[Cell; 64], n: usize) -> Word
    requires { ExpIn run.now work.now n × (kind_at run.now.parts.nodes.now n < 2) }
    ensures { Evaluated run.now work.now n result × Goes result }
{
    let nodes = run.parts.nodes;
    let a = slot(nodes, n, 0);
    if known_kind(nodes, n) == Kind::Field {
        let held = work[a];
        return Word::new(held.value, run.read(a, held.mark));
    }
    Word::new(constant_at(run.parts.constants, a), run.constant())
}

/// The expression at node n. An operator on two leaves, as most are, is answered without a frame.
#[cycle(eval_expression)]
pub fn expression(run: &Run, work: &[Cell; 64], n: usize) -> Word
    requires { ExpIn run.now work.now n }
    ensures { Evaluated run.now work.now n result }
{
    let nodes = run.parts.nodes;
    if known_kind(nodes, n) == Kind::Operator {
        let a = slot(nodes, n, 0);
        if is_leaf(known_kind(nodes, a)) {
            let left = leaf(run, work, a);
            let b = slot(nodes, n, 1);
            if is_leaf(known_kind(nodes, b)) {
                let right = leaf(run, work, b);
                return operate(run, left, n, right);
            }
        }
    }
    eval(run, work, n)
}

// The same by its parts.
#[cycle(eval_expression)]
fn eval(run: &Run, work: &[Cell; 64], n: usize) -> Word
    requires { ExpIn run.now work.now n }
    ensures { Evaluated run.now work.now n result }
{
    let nodes = run.parts.nodes;
    let kind = known_kind(nodes, n);
    let a = slot(nodes, n, 0);
    if kind == Kind::Operator {
        let left = if is_leaf(known_kind(nodes, a)) {
            leaf(run, work, a)
        } else {
            let x = expression(run, work, a);
            if x.is_stop() {
                return x;
            }
            x
        };
        let b = slot(nodes, n, 1);
        let right = if is_leaf(known_kind(nodes, b)) {
            leaf(run, work, b)
        } else {
            let y = expression(run, work, b);
            if y.is_stop() {
                return y;
            }
            y
        };
        return operate(run, left, n, right);
    }
    if is_leaf(kind) {
        return leaf(run, work, n);
    }
    let z = eval(run, work, a);
    if z.is_stop() {
        return z;
    }
    if kind == Kind::Not {
        return Word::new(z.value().not(), z.mark());
    }
    Word::new(z.value(), run.sealed())
}
