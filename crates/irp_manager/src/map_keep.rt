//! Live packets in an ordered map.

ghost use Rattle.std.specs.Prelude.{◌≡◌, None, is_some};
ghost use Rattle.std.specs.FinMap as fin;
ghost use Rattle.irp_manager.specs.Slots.{IsGranted};
ghost use Rattle.irp_manager.specs.Keeps.{mapped};

use crate::in_flight;
use crate::keep::{Keep, Live};
use irp_types::DeviceId;
use std::alloc::{AllocError, Global};
use std::collections::BTreeMap;

/// Live packets in an ordered map from their slots, which may be any. A new packet gets the slot that was wished for
/// where it isn't live, and else any slot that isn't (this project's own rule).
#[derive(Drop)]
pub struct MapKeep {
    places: BTreeMap<usize, Live>,
}

impl MapKeep {
    /// No packets. It takes no memory until one is inserted.
    pub fn new(alloc: Global) -> MapKeep
        ensures { mapped result ≡ fin.empty }
    {
        MapKeep {
            places: BTreeMap::new(alloc),
        }
    }

    /// Whether a slot has a packet.
    fn is_live(&self, slot: usize) -> bool
        ensures { result ≡ is_some (fin.get (mapped self.now) slot) }
    {
        self.places.contains_key(&slot)
    }

    /// A slot that isn't live.
    fn vacant(&self) -> usize
        ensures { fin.get (mapped self.now) result ≡ None }
    {
        let count = self.len();
        for slot in 0..count {
            if !self.is_live(slot) {
                return slot;
            }
        }
        count
    }

    /// The slot that is wished for where it isn't live, and else any that isn't.
    fn choose(&self, wish: Option<usize>) -> usize
        ensures vacant { fin.get (mapped self.now) result ≡ None }
        ensures granted { IsGranted (mapped self.now) wish result }
    {
        match wish {
            Some(slot) if !self.is_live(slot) => slot,
            _ => self.vacant(),
        }
    }
}

impl Keep for MapKeep {
    ghost live = { λ keep. mapped keep };

    ghost grants = { λ keep wish slot. IsGranted (mapped keep) wish slot };

    ghost gave_back = { λ old slot new. mapped new ≡ fin.remove (mapped old) slot };

    ghost next = { λ keep. None };

    fn len(&self) -> usize {
        self.places.len()
    }

    fn is_in_flight(&self, device: DeviceId) -> bool {
        for (_slot, live) in &self.places {
            if in_flight::has_packet(live, device) {
                return true;
            }
        }
        false
    }

    fn get(&self, slot: usize) -> Option<&Live> {
        self.places.get(&slot)
    }

    fn get_mut(&mut self, slot: usize) -> Option<&mut Live> {
        self.places.get_mut(&slot)
    }

    fn give_back(&mut self, slot: usize) {
        let _gone = self.places.remove(&slot);
    }

    fn insert(&mut self, wish: Option<usize>, size: u8, use_no: u64) -> Result<usize, AllocError> {
        let slot = self.choose(wish);
        self.places.insert(slot, Live::of_size(size, use_no))?;
        Ok(slot)
    }
}
