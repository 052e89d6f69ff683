// The nodes: what stands in their slots, and what is wrong with them.
#![tactic(auto)]

pub mod kinds;
pub mod uses;

ghost use Rattle.std.specs.Prelude.{◌≡◌, true, ℕ, ◌≤◌, ◌<◌, length, get_or, leb};
ghost use Rattle.nodes.specs.Nodes.{In, node_count, kind_at, op_at, slot_at, held_in, is_child, known, operator_zero, zero_in, range_right, of_sort, sort_right, slot_right, slots_right, node_verdict};
ghost use Rattle.nodes.specs.Inside.Counting.{TakesChild, TakesNode, Judges};

use basis::word;
use kinds::Kind;
use sections::verdict::{Fault, SheetError};
use uses::count_use;

/// What a slot of a node holds.
#[derive(Clone, Copy, Debug, PartialEq, Eq)]
pub enum Held {
    Nothing,
    Constant,
    Field,
    Expression,
    Command,
}

// Nodes and a number stay apart, and these ask that the node lies in them: a struct of both would be made for each child, from the same fact.
/// The kind of node n.
pub fn kind_of(nodes: &[u8], n: usize) -> u8
    requires { In nodes.now n }
    ensures { result ≡ kind_at nodes.now n }
{
    nodes[n * 8]
}

/// Its operator byte.
pub fn op_of(nodes: &[u8], n: usize) -> u8
    requires { In nodes.now n }
    ensures { result ≡ op_at nodes.now n }
{
    nodes[n * 8 + 1]
}

/// The number in its slot k: a, b and c are 0, 1 and 2.
pub fn slot(nodes: &[u8], n: usize, k: usize) -> usize
    requires { In nodes.now n × (k < 3) }
    ensures { (result ≡ slot_at nodes.now n k) × (result < 65536) }
{
    word(nodes, n * 8 + 2 + k * 2) as usize
}

/// Whether node n is an expression; a byte that is no kind's number makes none.
pub fn is_expression(nodes: &[u8], n: usize) -> bool
    requires { In nodes.now n }
    ensures { result ≡ leb (kind_at nodes.now n) 4 }
{
    match Kind::try_from(kind_of(nodes, n)) {
        Ok(kind) => kind.is_expression(),
        Err(_) => false,
    }
}

/// What slot k of a kind holds.
#[tactic(auto, using(crate::proofs::Slots::held_past))]
pub fn held_in(kind: u8, k: usize) -> Held
    requires { k < 3 }
    ensures { result ≡ held_in kind k }
{
    match Kind::try_from(kind) {
        Ok(kind) => kind.holds(k),
        Err(_) => Held::Nothing,
    }
}

pub fn is_child(held: Held) -> bool
    ensures { result ≡ is_child held }
{
    matches!(held, Held::Expression | Held::Command)
}

// Whether a slot that holds nothing is 0.
fn zero_in(held: Held, w: usize) -> bool
    ensures { result ≡ zero_in held w }
{
    match held {
        Held::Nothing => w == 0,
        _ => true,
    }
}

/// How many constants and fields a sheet has: what the indices of its nodes are below.
#[derive(Clone, Copy)]
pub struct Limits {
    pub constants: usize,
    pub fields: usize,
}

impl Limits {
    // Whether the number in a slot of node n is in range: an index below its count, a child lower than n.
    fn range_right(self, n: usize, held: Held, w: usize) -> bool
        ensures { result ≡ range_right self.fields self.constants n held w }
    {
        match held {
            Held::Nothing => true,
            Held::Constant => w < self.constants,
            Held::Field => w < self.fields,
            Held::Expression | Held::Command => w < n,
        }
    }
}

// Whether node w is of the sort that a slot holds.
fn of_sort(nodes: &[u8], held: Held, w: usize) -> bool
    requires { In nodes.now w }
    ensures { result ≡ of_sort held (kind_at nodes.now w) }
{
    match held {
        Held::Expression => is_expression(nodes, w),
        Held::Command => !is_expression(nodes, w),
        _ => true,
    }
}

// Whether the child in a slot of node n is, if it is lower.
fn sort_right(nodes: &[u8], n: usize, held: Held, w: usize) -> bool
    requires { In nodes.now n }
    ensures { result ≡ sort_right nodes.now n held w }
{
    n <= w || of_sort(nodes, held, w)
}

// Whether a slot of node n is free of a fault.
#[tactic(auto, unfolding(crate::specs::Nodes::slot_right))]
fn slot_right(nodes: &[u8], limits: Limits, n: usize, fault: Fault, held: Held, w: usize) -> bool
    requires { In nodes.now n }
    ensures { result ≡ slot_right nodes.now limits.fields limits.constants n fault held w }
{
    match fault {
        Fault::Unknown => true,
        Fault::Unused => zero_in(held, w),
        Fault::Range => limits.range_right(n, held, w),
        Fault::Sort => sort_right(nodes, n, held, w),
    }
}

// Whether all slots of node n are.
fn slots_right(nodes: &[u8], limits: Limits, n: usize, fault: Fault) -> bool
    requires { In nodes.now n }
    ensures { result ≡ slots_right nodes.now limits.fields limits.constants n fault }
{
    let kind = kind_of(nodes, n);
    for k in 0..3 {
        let w = slot(nodes, n, k);
        if !slot_right(nodes, limits, n, fault, held_in(kind, k), w) {
            return false;
        }
    }
    true
}

// Judges node n. Cold, since only a node at fault comes here: within the loop over the nodes it made load 2.9 in 100 slower.
#[cold]
#[tactic(auto, using(crate::proofs::Judged::told_kind, crate::proofs::Judged::told_unknown, crate::proofs::Judged::told_operator, crate::proofs::Judged::told_unused, crate::proofs::Judged::told_range, crate::proofs::Judged::told_sort, crate::proofs::Judged::told_none))]
fn judge_node(nodes: &[u8], limits: Limits, n: usize) -> Result<(), SheetError>
    requires { In nodes.now n }
    ensures { result ≡ node_verdict nodes.now limits.fields limits.constants n }
{
    let Ok(kind) = Kind::try_from(kind_of(nodes, n)) else {
        return Err(SheetError::Node(Fault::Unknown, n));
    };
    let op = op_of(nodes, n);
    if !kind.knows(op) {
        return Err(SheetError::Node(Fault::Unknown, n));
    }
    if !(kind.operator_zero(op) && slots_right(nodes, limits, n, Fault::Unused)) {
        return Err(SheetError::Node(Fault::Unused, n));
    }
    if !slots_right(nodes, limits, n, Fault::Range) {
        return Err(SheetError::Node(Fault::Range, n));
    }
    if !slots_right(nodes, limits, n, Fault::Sort) {
        return Err(SheetError::Node(Fault::Sort, n));
    }
    Ok(())
}

// Takes node w for a child of node n, and counts it: it must be lower, and of the sort that the slot holds.
fn take_child(nodes: &[u8], n: usize, w: usize, held: Held, used: &mut [u8]) -> bool
    requires { In nodes.now n × (n ≤ length used.old) }
    ensures { TakesChild nodes.now n w held used.old used.new result }
{
    if n <= w {
        return false;
    }
    count_use(used, w);
    of_sort(nodes, held, w)
}

// Whether node n is free of every fault, by its kind; its children are counted.
// An arm for each kind: with a table of what the slots hold, one after the other, load took 2.9 times as long.
fn take_node(nodes: &[u8], limits: Limits, n: usize, used: &mut [u8]) -> bool
    requires { In nodes.now n × (n ≤ length used.old) }
    ensures { TakesNode nodes.now limits.fields limits.constants n used.old used.new result }
{
    let Ok(kind) = Kind::try_from(kind_of(nodes, n)) else {
        return false;
    };
    let op = op_of(nodes, n);
    let a = slot(nodes, n, 0);
    let b = slot(nodes, n, 1);
    let c = slot(nodes, n, 2);
    match kind {
        Kind::Constant => (op == 0) & (a < limits.constants) & (b == 0) & (c == 0),
        Kind::Field => (op == 0) & (a < limits.fields) & (b == 0) & (c == 0),
        Kind::Operator => (op <= 9)
            & take_child(nodes, n, a, Held::Expression, used)
            & take_child(nodes, n, b, Held::Expression, used)
            & (c == 0),
        Kind::Not => (op == 0)
            & take_child(nodes, n, a, Held::Expression, used)
            & (b == 0)
            & (c == 0),
        Kind::Seal => (op == 0)
            & take_child(nodes, n, a, Held::Expression, used)
            & (b == 0)
            & (c == 0),
        Kind::Skip => (op == 0) & (a == 0) & (b == 0) & (c == 0),
        Kind::Assign => (op == 0)
            & (a < limits.fields)
            & take_child(nodes, n, b, Held::Expression, used)
            & (c == 0),
        Kind::Sequence => (op == 0)
            & take_child(nodes, n, a, Held::Command, used)
            & take_child(nodes, n, b, Held::Command, used)
            & (c == 0),
        Kind::If => (op == 0)
            & take_child(nodes, n, a, Held::Expression, used)
            & take_child(nodes, n, b, Held::Command, used)
            & take_child(nodes, n, c, Held::Command, used),
        Kind::While => (op == 0)
            & take_child(nodes, n, a, Held::Expression, used)
            & take_child(nodes, n, b, Held::Command, used)
            & (c == 0),
    }
}

/// Judges all nodes, the lowest first, and counts how often each is a child, from an array of zeros.
/// Which fault it is, is asked only of a node that has one.
pub fn judge_nodes(nodes: &[u8], limits: Limits, used: &mut [u8]) -> Result<(), SheetError>
    requires { (node_count nodes.now ≤ length used.old) × ((c : ℕ) → get_or used.old c 0 ≡ 0) }
    ensures { Judges nodes.now limits.fields limits.constants used.new result }
{
    let count = nodes.len() / 8;
    for n in 0..count {
        if !take_node(nodes, limits, n, used) {
            return judge_node(nodes, limits, n);
        }
    }
    Ok(())
}
