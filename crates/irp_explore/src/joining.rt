//! Joining nodes of one state.

ghost use Rattle.std.specs.Prelude.{◌≡◌, ℕ, ◌+◌, ◌*◌, ◌<◌, ◌≤◌, ◌++◌, ◌∷◌, List, Option, All, Contains, length, IfErr, IfOk, IfSome, IfNone, OnOk, ◌≢◌, slice_index_or};
ghost use Rattle.irp_explore.specs.declared.node.Node.{Node};
ghost use Rattle.irp_explore.specs.declared.refusal.LayerRefusal.TheVariants.{Orders, States};
ghost use Rattle.irp_explore.specs.Paths.{HasAsGood};
ghost use Rattle.irp_explore.specs.Counted.{AreCounted, HasManyOrders};
ghost use Rattle.irp_explore.specs.Nodes.{AreApart, AreFalling, HasMoreStates, IsFloor, IsMatched, IsReached, states_of, weigh};

use crate::machine::Machine;
use crate::node::Node;
use crate::path::add_paths;
use crate::refusal::LayerRefusal;
use std::alloc::Global;

/// The place of a node with the same state, among those at the end with the same mark. Where the nodes fall by their
/// marks down to that one, no other has the state.
fn place_of<M: Machine>(
    machine: &M,
    joined: &[Node<M::State>],
    node: &Node<M::State>,
) -> Option<usize>
    ensures there { IfSome result (λ place. place < length joined.now) }
    ensures same { IfSome result (λ place. (other : Node M.State)
        → (slice_index_or joined.now place other).state ≡ node.now.state) }
    ensures none { IfNone result ((start : M.State) (steps : Option ℕ)
        → let reached = IsReached (M.moves machine.now) (M.seats machine.now)
        (M.mark machine.now) start steps in
        All reached joined.now → reached node.now → AreFalling joined.now
        → IsFloor node.now.mark joined.now
        → All (λ other. other.state ≢ node.now.state) joined.now) }
{
    let mut end = joined.len();
    while end > 0 {
        end -= 1;
        let other = &joined[end];
        if other.mark != node.mark {
            return None;
        }
        if machine.is_same(&other.state, &node.state) {
            return Some(end);
        }
    }
    None
}

/// Puts a node behind others, or adds its orders to those of a node with the same state, where `place_of` finds one.
fn join_one<M: Machine>(
    machine: &M,
    joined: &mut Vec<Node<M::State>>,
    node: Node<M::State>,
) -> Result<(), LayerRefusal>
    ensures refusal { IfErr result (λ refusal. refusal ≢ States) }
    ensures weight { OnOk result ((number : M.State → ℕ) → weigh number joined.new.items
        ≡ weigh number joined.old.items + node.orders * number node.state) }
    ensures reached { OnOk result ((start : M.State) (steps : Option ℕ)
        → let reached = IsReached (M.moves machine.now) (M.seats machine.now)
        (M.mark machine.now) start steps in
        All reached joined.old.items → reached node → All reached joined.new.items) }
    ensures kept { OnOk result ((state : M.State) → Contains (states_of joined.old.items) state
        → Contains (states_of joined.new.items) state) }
    ensures held { OnOk result (Contains (states_of joined.new.items) node.state) }
    ensures matched { OnOk result ((path : List ℕ) → HasAsGood node.fewest.items path
        → IsMatched joined.new.items node.state path) }
    ensures matched_still { OnOk result ((state : M.State) (path : List ℕ)
        → IsMatched joined.old.items state path → IsMatched joined.new.items state path) }
    ensures apart { OnOk result ((start : M.State) (steps : Option ℕ)
        → let reached = IsReached (M.moves machine.now) (M.seats machine.now)
        (M.mark machine.now) start steps in
        All reached joined.old.items → reached node → AreFalling joined.old.items
        → IsFloor node.mark joined.old.items → AreApart joined.old.items
        → AreApart joined.new.items) }
    ensures falling { OnOk result (AreFalling joined.old.items
        → IsFloor node.mark joined.old.items → AreFalling joined.new.items) }
    ensures floor { OnOk result ((mark : ℕ) → mark ≤ node.mark → IsFloor mark joined.old.items
        → IsFloor mark joined.new.items) }
    ensures counted { OnOk result ((start : M.State) (others : List (Node M.State))
        → let counted = AreCounted (M.moves machine.now) (M.seats machine.now) start in
        counted (node ∷ (joined.old.items ++ others)) → counted (joined.new.items ++ others)) }
    ensures too_many_orders { IfErr result (λ refusal. refusal ≡ Orders
        → (start : M.State) (others : List (Node M.State))
        → AreCounted (M.moves machine.now) (M.seats machine.now) start
        (node ∷ (joined.old.items ++ others))
        → HasManyOrders (M.moves machine.now) (M.seats machine.now) start) }
{
    let Some(place) = place_of(machine, joined, &node) else {
        joined.push(node)?;
        return Ok(());
    };
    let other = &mut joined[place];
    let Some(orders) = other.orders.checked_add(node.orders) else {
        return Err(LayerRefusal::Orders);
    };
    add_paths(&mut other.fewest, node.fewest)?;
    other.orders = orders;
    Ok(())
}

/// Joins nodes of one state, in the order of falling marks.
///
/// # Errors
///
/// `States` only where more nodes than `most_states` are left; `Orders` only where 2^128 orders or more lead to one
/// state; `Memory` where memory runs out.
pub(crate) fn join_equal<M: Machine>(
    alloc: Global,
    machine: &M,
    mut nodes: Vec<Node<M::State>>,
    most_states: usize,
) -> Result<Vec<Node<M::State>>, LayerRefusal>
    ensures weight { IfOk result (λ joined. (number : M.State → ℕ)
        → weigh number joined.items ≡ weigh number nodes.items) }
    ensures reached { IfOk result (λ joined. (start : M.State) (steps : Option ℕ)
        → let reached = IsReached (M.moves machine.now) (M.seats machine.now)
        (M.mark machine.now) start steps in
        All reached nodes.items → All reached joined.items) }
    ensures kept { IfOk result (λ joined. (state : M.State)
        → Contains (states_of nodes.items) state → Contains (states_of joined.items) state) }
    ensures matched { IfOk result (λ joined. (state : M.State) (path : List ℕ)
        → IsMatched nodes.items state path → IsMatched joined.items state path) }
    ensures apart { IfOk result (λ joined. (start : M.State) (steps : Option ℕ)
        → let reached = IsReached (M.moves machine.now) (M.seats machine.now)
        (M.mark machine.now) start steps in
        All reached nodes.items → AreApart joined.items) }
    ensures few { IfOk result (λ joined. length joined.items ≤ most_states) }
    ensures too_many { IfErr result (λ refusal. refusal ≡ States
        → (start : M.State) (steps : Option ℕ)
        → let reached = IsReached (M.moves machine.now) (M.seats machine.now)
        (M.mark machine.now) start steps in
        All reached nodes.items
        → HasMoreStates (M.moves machine.now) (M.seats machine.now)
        (M.mark machine.now) start most_states) }
    ensures counted { IfOk result (λ joined. (start : M.State) (others : List (Node M.State))
        → let counted = AreCounted (M.moves machine.now) (M.seats machine.now) start in
        counted (nodes.items ++ others) → counted (joined.items ++ others)) }
    ensures too_many_orders { IfErr result (λ refusal. refusal ≡ Orders
        → (start : M.State) (others : List (Node M.State))
        → AreCounted (M.moves machine.now) (M.seats machine.now) start (nodes.items ++ others)
        → HasManyOrders (M.moves machine.now) (M.seats machine.now) start) }
{
    nodes.sort_by_key(|node: &Node<M::State>| node.mark)?;
    let mut joined = Vec::new(alloc);
    while let Some(node) = nodes.pop() {
        join_one(machine, &mut joined, node)?;
    }
    if joined.len() > most_states {
        return Err(LayerRefusal::States);
    }
    Ok(joined)
}
