// How deep the tree is, by recursion on the node number. The depth allowed falls with it, so that no sheet makes more calls nest than the depth
// allows. The nodes come behind a reference to the slice: a frame is a few registers.
ghost use Rattle.std.specs.Prelude.{◌≡◌, List, ℕ, ◌<◌, leb};
ghost use Rattle.sheet.specs.Inside.Depth.{NodeIn, depth_at, depth_in};

use nodes::{held_in, is_child, kind_of, slot};

/// Whether the tree at node n is at most `most` deep, whatever its constants. Slot b comes last: what follows in a sequence takes no frame.
#[cycle(child_fits_fits)]
pub fn fits(nodes: &&[u8], n: usize, most: u32) -> bool
    requires { NodeIn nodes.now.now n }
    ensures { (constants : List ℕ) → result ≡ leb (depth_at constants nodes.now.now n) most }
{
    if most == 0 {
        return false;
    }
    if !child_fits(nodes, n, 0, most - 1) {
        return false;
    }
    if !child_fits(nodes, n, 2, most - 1) {
        return false;
    }
    child_fits(nodes, n, 1, most - 1)
}

// Whether the tree in slot k of node n is, if the slot holds a child.
#[cycle(child_fits_fits)]
fn child_fits(nodes: &&[u8], n: usize, k: usize, most: u32) -> bool
    requires { NodeIn nodes.now.now n × (k < 3) }
    ensures { (constants : List ℕ) → result ≡ leb (depth_in constants nodes.now.now n k) most }
{
    if is_child(held_in(kind_of(*nodes, n), k)) {
        return fits(nodes, slot(*nodes, n, k), most);
    }
    true
}
