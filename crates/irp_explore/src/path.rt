//! Orders that are kept since they change their seat least often.

ghost use Rattle.std.specs.Prelude.{◌≡◌, ◌≤◌, ◌++◌, ◌∷◌, ◌⊎◌, ◌-◌, [], ℕ, List, All, Contains, IfNone, IfOk, IfSome, OnOk, true, length, slice_get};
ghost use Rattle.irp_explore.specs.Paths.{changes_of, seam, IsAsGood, HasAsGood};

use std::alloc::{AllocError, Global};
use std::marker::Model;

/// An order: the seats of its steps, one after another.
///
/// Contracts see it as a list.
#[derive(Drop)]
pub struct Path {
    seats: Vec<u32>,
    /// How often the seat changes along them.
    changes: usize,
}

impl Model for Path {
    ghost use Rattle.std.specs.Prelude.{◌≡◌, ℕ, List};
    ghost use Rattle.irp_explore.specs.Paths.{changes_of};

    ghost Value = { List ℕ };

    ghost view = { λ path. path.seats.items };

    ghost invariant = { λ path. path.changes ≡ changes_of path.seats.items };
}

/// How often the seat changes between the last step, if there is one, and a step of this seat.
fn seam(last: Option<u32>, seat: u32) -> usize
    ensures seam { result ≡ seam last (seat ∷ []) }
    ensures once { result ≤ 1 }
{
    match last {
        Some(before) if before != seat => 1,
        _ => 0,
    }
}

impl Path {
    /// The order that has no step.
    pub(crate) fn new(alloc: Global) -> Path
        ensures { result ≡ [] }
    {
        Path {
            seats: Vec::new(alloc),
            changes: 0,
        }
    }

    /// The seats of its steps, one after another.
    pub fn into_vec(self) -> Vec<u32>
        ensures { result.items ≡ self }
    {
        self.seats
    }

    /// How often the seat changes along it.
    fn changes(&self) -> usize
        ensures { result ≡ changes_of self.now }
    {
        self.changes
    }

    /// The seat of its last step.
    fn last(&self) -> Option<u32>
        ensures { result ≡ slice_get self.now (length self.now - 1) }
    {
        self.seats.last().copied()
    }

    /// Whether it changes its seat no more often than another, whatever steps follow.
    fn is_as_good(&self, other: &Path) -> bool
        ensures { result ≡ true → IsAsGood self.now other.now }
    {
        let (few, many) = (self.changes(), other.changes());
        if few != many {
            return few < many;
        }
        self.last() == other.last()
    }

    /// How often the seat changes along it with one more step.
    fn changes_with(&self, seat: u32) -> usize
        ensures { result ≡ changes_of (self.now ++ seat ∷ []) }
    {
        self.changes + seam(self.last(), seat)
    }

    /// The order with one more step.
    fn longer(&self, alloc: Global, seat: u32) -> Result<Path, AllocError>
        ensures { IfOk result (λ longer. longer ≡ self.now ++ seat ∷ []) }
    {
        let mut seats = Vec::with_capacity(alloc, self.seats.len() + 1)?;
        seats.extend_from_slice(&self.seats)?;
        seats.push(seat)?;
        Ok(Path {
            seats,
            changes: self.changes_with(seat),
        })
    }
}

/// Adds an order to others, where none of them is as good. It takes the place of one that it is as good as, if there is
/// one.
fn add_path(paths: &mut Vec<Path>, path: Path) -> Result<(), AllocError>
    ensures kept { OnOk result ((other : List ℕ) → HasAsGood paths.old.items other
        → HasAsGood paths.new.items other) }
    ensures held { OnOk result ((other : List ℕ) → IsAsGood path other
        → HasAsGood paths.new.items other) }
    ensures only { OnOk result (All (λ one. Contains paths.old.items one ⊎ (one ≡ path))
        paths.new.items) }
{
    for place in 0..paths.len() {
        if paths[place].is_as_good(&path) {
            return Ok(());
        }
        if path.is_as_good(&paths[place]) {
            paths[place] = path;
            return Ok(());
        }
    }
    paths.push(path)?;
    Ok(())
}

/// Adds orders to others, those to which none is as good.
pub(crate) fn add_paths(paths: &mut Vec<Path>, mut others: Vec<Path>) -> Result<(), AllocError>
    ensures kept { OnOk result ((other : List ℕ) → HasAsGood paths.old.items other
        → HasAsGood paths.new.items other) }
    ensures held { OnOk result ((other : List ℕ) → HasAsGood others.items other
        → HasAsGood paths.new.items other) }
    ensures only { OnOk result (All (λ one. Contains paths.old.items one ⊎ Contains others.items one)
        paths.new.items) }
{
    while let Some(path) = others.pop() {
        add_path(paths, path)?;
    }
    Ok(())
}

/// Of the orders with one more step one that changes its seat least often, since then it is as good as each.
pub(crate) fn longer_paths(
    alloc: Global,
    paths: &[Path],
    seat: u32,
) -> Result<Vec<Path>, AllocError>
    ensures held { IfOk result (λ longer. (other : List ℕ) → HasAsGood paths.now other
        → HasAsGood longer.items (other ++ seat ∷ [])) }
    ensures only { IfOk result (λ longer. All (λ one. (before : List ℕ)
        × Contains paths.now before × (one ≡ before ++ seat ∷ [])) longer.items) }
{
    let mut longer = Vec::with_capacity(alloc, 1)?;
    if paths.is_empty() {
        return Ok(longer);
    }
    let mut best = 0;
    for place in 1..paths.len() {
        if paths[place].changes_with(seat) < paths[best].changes_with(seat) {
            best = place;
        }
    }
    longer.push(paths[best].longer(alloc, seat)?)?;
    Ok(longer)
}

/// The order that changes its seat least often; none where there are no orders (this project's own rule).
pub fn fewest_changes(mut paths: Vec<Path>) -> Option<Path>
    ensures held { IfSome result (λ path. Contains paths.items path) }
    ensures fewest { IfSome result (λ path.
        All (λ other. changes_of path ≤ changes_of other) paths.items) }
    ensures none { IfNone result (paths.items ≡ []) }
{
    if paths.is_empty() {
        return None;
    }
    let mut best = 0;
    for place in 1..paths.len() {
        if paths[place].changes() < paths[best].changes() {
            best = place;
        }
    }
    Some(paths.swap_remove(best))
}
