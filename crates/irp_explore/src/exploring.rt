//! Exploring, layer by layer: a layer has the states that orders of equally many steps lead to.

ghost use Rattle.std.specs.Prelude.{◌≡◌, ◌≢◌, ℕ, ◌+◌, ◌*◌, ◌<◌, ◌≤◌, ◌++◌, ◌∷◌, [], Option, Some, None, List, All, Contains, length, IfOk, IfErr, OnOk, true};
ghost use mathlib.Core.Logic.{◌↔◌};
ghost use Rattle.irp_explore.specs.declared.node.Node.{Node};
ghost use Rattle.irp_explore.specs.declared.refusal.NotExplored.TheVariants.{Orders, States, Steps};
ghost use Rattle.irp_explore.specs.declared.refusal.LayerRefusal.TheVariants.{Memory as LayerMemory, Orders as LayerOrders, States as LayerStates};
ghost use Rattle.irp_explore.specs.Orders.{Leads, HasEnded, IsSharedOut};
ghost use Rattle.irp_explore.specs.Paths.{HasAsGood};
ghost use Rattle.irp_explore.specs.Counted.{AddsSteps, AreCounted, HasManyOrders};
ghost use Rattle.irp_explore.specs.Nodes.{AreApart, IsAhead, IsExpanded, IsFound, IsMatched, IsMatchedOn, HasMoreStates, HasOrderOf, IsReached, AddsSuccessors, states_of, weigh};

use crate::joining::join_equal;
use crate::machine::Machine;
use crate::node::Node;
use crate::path::{Path, longer_paths};
use crate::refusal::{LayerRefusal, NotExplored};
use std::alloc::{AllocError, Global};

/// So many nodes aren't joined before their layer is whole.
const FEW: usize = 1000;

/// Appends a node for each state that the next step of some seat leads to.
fn add_successors<M: Machine>(
    alloc: Global,
    machine: &M,
    node: &Node<M::State>,
    nodes: &mut Vec<Node<M::State>>,
) -> Result<(), AllocError>
    ensures successors { OnOk result (AddsSuccessors (M.moves machine.now) (M.seats machine.now)
        node.now nodes.old.items nodes.new.items) }
    ensures steps { OnOk result (AddsSteps (M.moves machine.now) (M.seats machine.now)
        node.now nodes.old.items nodes.new.items) }
    ensures reached { OnOk result ((start : M.State) (steps : ℕ)
        → let reached = IsReached (M.moves machine.now) (M.seats machine.now)
        (M.mark machine.now) start in
        reached (Some steps) node.now → All (reached (Some (steps + 1))) nodes.old.items
        → All (reached (Some (steps + 1))) nodes.new.items) }
    ensures kept { OnOk result ((state : M.State) (path : List ℕ)
        → IsMatched nodes.old.items state path → IsMatched nodes.new.items state path) }
    ensures matched { OnOk result ((path : List ℕ) (seat : ℕ) (after : M.State)
        → HasAsGood node.now.fewest.items path → seat < M.seats machine.now
        → M.moves machine.now node.now.state seat (Some after)
        → IsMatched nodes.new.items after (path ++ seat ∷ [])) }
{
    for seat in 0..machine.seats() {
        if let Some(state) = machine.step(alloc, &node.state, seat)? {
            let mark = machine.mark(&state);
            nodes.push(Node {
                state,
                mark,
                orders: node.orders,
                fewest: longer_paths(alloc, &node.fewest, seat)?,
            })?;
        }
    }
    Ok(())
}

/// Appends the successors of a node to the next layer, and the node itself to what was found where it has none.
fn expand<M: Machine>(
    alloc: Global,
    machine: &M,
    node: Node<M::State>,
    next: &mut Vec<Node<M::State>>,
    found: &mut Vec<Node<M::State>>,
) -> Result<(), AllocError>
    ensures weight { OnOk result ((number : M.State → ℕ)
        → IsSharedOut (M.moves machine.now) (M.seats machine.now) number
        → weigh number found.new.items + weigh number next.new.items
        ≡ weigh number found.old.items + weigh number next.old.items
        + node.orders * number node.state) }
    ensures expanded { OnOk result (IsExpanded (M.moves machine.now) (M.seats machine.now)
        found.new.items next.new.items node.state) }
    ensures kept_next { OnOk result ((state : M.State)
        → Contains (states_of next.old.items) state → Contains (states_of next.new.items) state) }
    ensures kept_found { OnOk result ((state : M.State)
        → Contains (states_of found.old.items) state
        → Contains (states_of found.new.items) state) }
    ensures reached { OnOk result ((start : M.State) (steps : ℕ)
        → let reached = IsReached (M.moves machine.now) (M.seats machine.now)
        (M.mark machine.now) start in
        reached (Some steps) node → All (reached (Some (steps + 1))) next.old.items
        → All (reached (Some (steps + 1))) next.new.items) }
    ensures found { OnOk result ((start : M.State) (steps : ℕ)
        → let reached = IsReached (M.moves machine.now) (M.seats machine.now)
        (M.mark machine.now) start in
        reached (Some steps) node → All (reached None) found.old.items
        → All (reached None) found.new.items) }
    ensures matched_on { OnOk result ((path : List ℕ) → HasAsGood node.fewest.items path
        → IsMatchedOn (M.moves machine.now) (M.seats machine.now) found.new.items next.new.items
        node.state path) }
    ensures matched_next { OnOk result ((state : M.State) (path : List ℕ)
        → IsMatched next.old.items state path → IsMatched next.new.items state path) }
    ensures matched_found { OnOk result ((state : M.State) (path : List ℕ)
        → IsMatched found.old.items state path → IsMatched found.new.items state path) }
    ensures counted { OnOk result ((start : M.State) (others : List (Node M.State))
        → let counted = AreCounted (M.moves machine.now) (M.seats machine.now) start in
        counted (node ∷ (others ++ (found.old.items ++ next.old.items)))
        → counted (others ++ (found.new.items ++ next.new.items))) }
{
    let before = next.len();
    add_successors(alloc, machine, &node, next)?;
    if next.len() != before {
        return Ok(());
    }
    found.push(node)?;
    Ok(())
}

/// Whether nodes have become more than twice as many as were left when they were last joined, and many.
fn have_grown(nodes: usize, left: usize) -> bool {
    nodes / 2 > left && nodes > FEW
}

/// How many nodes were left when they were last joined: these, where that was now.
fn last_left(is_joined: bool, nodes: usize, before: usize) -> usize {
    if is_joined { nodes } else { before }
}

/// Joins nodes where they have grown; else it gives them back as they are.
fn join_grown<M: Machine>(
    alloc: Global,
    machine: &M,
    nodes: Vec<Node<M::State>>,
    has_grown: bool,
    most_states: usize,
) -> Result<Vec<Node<M::State>>, LayerRefusal>
    ensures weight { IfOk result (λ joined. (number : M.State → ℕ)
        → weigh number joined.items ≡ weigh number nodes.items) }
    ensures reached { IfOk result (λ joined. (start : M.State) (steps : Option ℕ)
        → let reached = IsReached (M.moves machine.now) (M.seats machine.now)
        (M.mark machine.now) start steps in
        All reached nodes.items → All reached joined.items) }
    ensures kept { IfOk result (λ joined. (state : M.State)
        → Contains (states_of nodes.items) state → Contains (states_of joined.items) state) }
    ensures matched { IfOk result (λ joined. (state : M.State) (path : List ℕ)
        → IsMatched nodes.items state path → IsMatched joined.items state path) }
    ensures too_many { IfErr result (λ refusal. refusal ≡ LayerStates
        → (start : M.State) (steps : Option ℕ)
        → let reached = IsReached (M.moves machine.now) (M.seats machine.now)
        (M.mark machine.now) start steps in
        All reached nodes.items
        → HasMoreStates (M.moves machine.now) (M.seats machine.now)
        (M.mark machine.now) start most_states) }
    ensures counted { IfOk result (λ joined. (start : M.State) (others : List (Node M.State))
        → let counted = AreCounted (M.moves machine.now) (M.seats machine.now) start in
        counted (nodes.items ++ others) → counted (joined.items ++ others)) }
    ensures too_many_orders { IfErr result (λ refusal. refusal ≡ LayerOrders
        → (start : M.State) (others : List (Node M.State))
        → AreCounted (M.moves machine.now) (M.seats machine.now) start (nodes.items ++ others)
        → HasManyOrders (M.moves machine.now) (M.seats machine.now) start) }
{
    if !has_grown {
        return Ok(nodes);
    }
    join_equal(alloc, machine, nodes, most_states)
}

/// Makes one more step in each order that leads to a layer: the next layer, and behind what was found the nodes that
/// have ended. The next layer is joined whenever it has grown, so it never takes much more than twice what is left of it.
fn next_layer<M: Machine>(
    alloc: Global,
    machine: &M,
    mut layer: Vec<Node<M::State>>,
    most_states: usize,
    found: &mut Vec<Node<M::State>>,
) -> Result<Vec<Node<M::State>>, LayerRefusal>
    ensures weight { IfOk result (λ next. (number : M.State → ℕ)
        → IsSharedOut (M.moves machine.now) (M.seats machine.now) number
        → weigh number found.new.items + weigh number next.items
        ≡ weigh number found.old.items + weigh number layer.items) }
    ensures ahead { IfOk result (λ next. (steps : ℕ) (last : M.State)
        → let ahead = IsAhead (M.moves machine.now) (M.seats machine.now) in
        ahead layer.items (steps + 1) last → ahead next.items steps last) }
    ensures ended { OnOk result ((state : M.State) → Contains (states_of layer.items) state
        → HasEnded (M.moves machine.now) (M.seats machine.now) state
        → Contains (states_of found.new.items) state) }
    ensures kept { OnOk result ((state : M.State) → Contains (states_of found.old.items) state
        → Contains (states_of found.new.items) state) }
    ensures reached { IfOk result (λ next. (start : M.State) (steps : ℕ)
        → let reached = IsReached (M.moves machine.now) (M.seats machine.now)
        (M.mark machine.now) start in
        All (reached (Some steps)) layer.items → All (reached (Some (steps + 1))) next.items) }
    ensures found { OnOk result ((start : M.State) (steps : ℕ)
        → let reached = IsReached (M.moves machine.now) (M.seats machine.now)
        (M.mark machine.now) start in
        All (reached (Some steps)) layer.items → All (reached None) found.old.items
        → All (reached None) found.new.items) }
    ensures matched_on { IfOk result (λ next. (state : M.State) (path : List ℕ)
        → IsMatched layer.items state path
        → IsMatchedOn (M.moves machine.now) (M.seats machine.now) found.new.items next.items
        state path) }
    ensures matched { OnOk result ((state : M.State) (path : List ℕ)
        → IsMatched found.old.items state path → IsMatched found.new.items state path) }
    ensures too_many { IfErr result (λ refusal. refusal ≡ LayerStates
        → (start : M.State) (steps : ℕ)
        → let reached = IsReached (M.moves machine.now) (M.seats machine.now)
        (M.mark machine.now) start in
        All (reached (Some steps)) layer.items
        → HasMoreStates (M.moves machine.now) (M.seats machine.now)
        (M.mark machine.now) start most_states) }
    ensures counted { IfOk result (λ next. (start : M.State)
        → let counted = AreCounted (M.moves machine.now) (M.seats machine.now) start in
        counted (layer.items ++ found.old.items) → counted (found.new.items ++ next.items)) }
    ensures too_many_orders { IfErr result (λ refusal. refusal ≡ LayerOrders → (start : M.State)
        → AreCounted (M.moves machine.now) (M.seats machine.now) start
        (layer.items ++ found.old.items)
        → HasManyOrders (M.moves machine.now) (M.seats machine.now) start) }
{
    let mut next = Vec::new(alloc);
    let mut left = 0;
    while let Some(node) = layer.pop() {
        expand(alloc, machine, node, &mut next, found)?;
        let has_grown = have_grown(next.len(), left);
        next = join_grown(alloc, machine, next, has_grown, most_states)?;
        left = last_left(has_grown, next.len(), left);
    }
    let joined = join_equal(alloc, machine, next, most_states)?;
    Ok(joined)
}

/// The layer of the order that has no step.
fn first_layer<M: Machine>(
    alloc: Global,
    machine: &M,
    start: M::State,
) -> Result<Vec<Node<M::State>>, LayerRefusal>
    ensures weight { IfOk result (λ layer. (number : M.State → ℕ)
        → weigh number layer.items ≡ number start) }
    ensures reached { IfOk result (λ layer.
        All (IsReached (M.moves machine.now) (M.seats machine.now) (M.mark machine.now) start
        (Some 0)) layer.items) }
    ensures held { IfOk result (λ layer. Contains (states_of layer.items) start) }
    ensures matched { IfOk result (λ layer. IsMatched layer.items start []) }
    ensures counted { IfOk result (λ layer.
        AreCounted (M.moves machine.now) (M.seats machine.now) start layer.items) }
    ensures refusal { IfErr result (λ refusal. refusal ≡ LayerMemory) }
{
    let mark = machine.mark(&start);
    let mut fewest = Vec::new(alloc);
    fewest.push(Path::new(alloc))?;
    let mut layer = Vec::new(alloc);
    layer.push(Node {
        state: start,
        mark,
        orders: 1,
        fewest,
    })?;
    Ok(layer)
}

/// Whether a further step may be made, and there are nodes to make it from.
fn goes_on(steps: u32, nodes: usize) -> bool
    ensures { (result ≡ true) ↔ ((0 < steps) × (0 < nodes)) }
{
    steps > 0 && nodes > 0
}

/// Explores each order of the steps of a machine's seats, from a state on. Returns each state in which an order ends,
/// with how many orders end there and some of them, among which is one that changes its seat least often. They come in
/// the order of their marks, which no clause says (this project's own rule).
///
/// # Errors
///
/// `Steps` only where some order has `most_steps` steps or more; `States` only where orders of equally many steps lead
/// to more than `most_states` states, or where orders end in more; `Orders` only where 2^128 orders or more lead to one
/// state; `Memory` where memory runs out.
pub fn explore<M: Machine>(
    alloc: Global,
    machine: &M,
    start: M::State,
    most_steps: u32,
    most_states: usize,
) -> Result<Vec<Node<M::State>>, NotExplored>
    // Each state that was found has ended. An order is kept that leads to it, and each that is kept does.
    ensures sound { IfOk result (λ found.
        All (IsFound (M.moves machine.now) (M.seats machine.now) start) found.items) }
    // No state is found twice.
    ensures once { IfOk result (λ found. AreApart found.items) }
    // Each state that has ended and to which some order leads is found.
    ensures complete { IfOk result (λ found. (path : List ℕ) (last : M.State)
        → Leads (M.moves machine.now) (M.seats machine.now) start path last
        → HasEnded (M.moves machine.now) (M.seats machine.now) last
        → Contains (states_of found.items) last) }
    // Each order that ends is matched by an order that is kept, which ends so and changes its seat no more often.
    ensures fewest { IfOk result (λ found. (path : List ℕ) (last : M.State)
        → Leads (M.moves machine.now) (M.seats machine.now) start path last
        → HasEnded (M.moves machine.now) (M.seats machine.now) last
        → IsMatched found.items last path) }
    // A number that each state with a step left shares out among its successors adds up to the start's over what was
    // found, each as often as orders lead to it: such as how many orders there are, or how many of them end somewhere.
    ensures orders { IfOk result (λ found. (number : M.State → ℕ)
        → IsSharedOut (M.moves machine.now) (M.seats machine.now) number
        → weigh number found.items ≡ number start) }
    // As many different orders as are told of it lead to each state that was found.
    ensures counted { IfOk result (λ found.
        AreCounted (M.moves machine.now) (M.seats machine.now) start found.items) }
    // Each order has fewer than `most_steps` steps, and no more states are found than were allowed.
    ensures steps { IfOk result (λ found. (path : List ℕ) (last : M.State)
        → Leads (M.moves machine.now) (M.seats machine.now) start path last
        → length path < most_steps) }
    ensures few { IfOk result (λ found. length found.items ≤ most_states) }
    // Some order has `most_steps` steps, there are more states than were allowed, or 2^128 different orders or more
    // lead to one state, where the answer says so.
    ensures too_long { IfErr result (λ refusal. refusal ≡ Steps
        → HasOrderOf (M.moves machine.now) (M.seats machine.now) start most_steps) }
    ensures too_many { IfErr result (λ refusal. refusal ≡ States
        → HasMoreStates (M.moves machine.now) (M.seats machine.now)
        (M.mark machine.now) start most_states) }
    ensures too_many_orders { IfErr result (λ refusal. refusal ≡ Orders
        → HasManyOrders (M.moves machine.now) (M.seats machine.now) start) }
{
    let mut found = Vec::new(alloc);
    let first = first_layer(alloc, machine, start)?;
    let mut layer = first;
    let mut left = most_steps;
    while goes_on(left, layer.len()) {
        left -= 1;
        layer = next_layer(alloc, machine, layer, most_states, &mut found)?;
        let has_grown = have_grown(found.len(), most_states);
        found = join_grown(alloc, machine, found, has_grown, most_states)?;
    }
    if !layer.is_empty() {
        return Err(NotExplored::Steps);
    }
    let joined = join_equal(alloc, machine, found, most_states)?;
    Ok(joined)
}
