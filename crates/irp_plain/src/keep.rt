//! A keep of live packets that can be copied and compared.

ghost use Rattle.std.specs.Prelude.{◌≡◌, ◌<◌, ◌≤◌, ℕ, true, None, is_some, IfOk, OnErr, OnOk, [], length};
ghost use mathlib.Core.Logic.{◌↔◌};
ghost use Rattle.std.specs.FinMap as fin;
ghost use Rattle.irp_types.specs.State.{LivePacket};
ghost use Rattle.irp_manager.specs.Slots.{IsGranted, live_of};

use irp_manager::{Keep, Live, has_packet};
use irp_packet::Packet;
use irp_types::DeviceId;
use std::alloc::{AllocError, Global};
use std::marker::Model;

/// Live packets in a list of places, a slot being a place. A new packet gets the slot that was wished for where it isn't
/// live, and else one behind all others (this project's own rule).
///
/// Contracts see it as the list of its places.
#[derive(Drop)]
pub struct PlainKeep {
    places: Vec<Option<Live>>,
}

impl Model for PlainKeep {
    ghost use Rattle.std.specs.Prelude.{List, Option};
    ghost use Rattle.irp_types.specs.State.{LivePacket};

    ghost Value = { List (Option LivePacket) };

    ghost view = { λ keep. keep.places.items };
}

impl PlainKeep {
    /// No packets. It takes no memory until one is inserted.
    pub fn new(alloc: Global) -> PlainKeep
        ensures { result ≡ [] }
    {
        PlainKeep {
            places: Vec::new(alloc),
        }
    }

    /// How many places there are, taken or not.
    pub(crate) fn places(&self) -> usize
        ensures { result ≡ length self.now }
    {
        self.places.len()
    }

    /// Whether a slot has a packet.
    fn is_live(&self, slot: usize) -> bool
        ensures { result ≡ is_some (fin.get (live_of self.now) slot) }
    {
        self.get(slot).is_some()
    }

    /// The slot that is wished for where it isn't live, and else the one behind all others.
    fn choose(&self, wish: Option<usize>) -> usize
        ensures vacant { fin.get (live_of self.now) result ≡ None }
        ensures granted { IsGranted (live_of self.now) wish result }
    {
        match wish {
            Some(slot) if !self.is_live(slot) => slot,
            _ => self.places.len(),
        }
    }

    /// Adds vacant places until there is one of this slot.
    ///
    /// # Errors
    ///
    /// `AllocError` where a growth was refused. No packet changes then either.
    #[tactic(auto, using(crate::proofs::KeepMaps::grown))]
    fn reach(&mut self, slot: usize) -> Result<(), AllocError>
        ensures same { live_of self.new ≡ live_of self.old }
        ensures there { OnOk result (slot < length self.new) }
    {
        while self.places.len() <= slot {
            self.places.push(None)?;
        }
        Ok(())
    }
}

impl Clone for PlainKeep {
    ghost is_clone = { λ keep copy. copy ≡ keep };

    fn clone(&self) -> Result<PlainKeep, AllocError> {
        Ok(PlainKeep {
            places: self.places.clone()?,
        })
    }
}

impl Keep for PlainKeep {
    ghost live = { live_of };

    ghost grants = { λ keep wish slot. IsGranted (live_of keep) wish slot };

    ghost gave_back = { λ old slot new. live_of new ≡ fin.remove (live_of old) slot };

    ghost next = { λ keep. None };

    fn len(&self) -> usize {
        let mut count = 0;
        for place in &self.places {
            if place.is_some() {
                count += 1;
            }
        }
        count
    }

    fn is_in_flight(&self, device: DeviceId) -> bool {
        for place in &self.places {
            if let Some(live) = place {
                if has_packet(live, device) {
                    return true;
                }
            }
        }
        false
    }

    fn get(&self, slot: usize) -> Option<&Live> {
        if slot >= self.places.len() {
            return None;
        }
        let place = &self.places[slot];
        place.as_ref()
    }

    fn get_mut(&mut self, slot: usize) -> Option<&mut Live> {
        match self.places.get_mut(slot) {
            Some(place) => place.as_mut(),
            None => None,
        }
    }

    fn give_back(&mut self, slot: usize) {
        if slot < self.places.len() {
            self.places[slot] = None;
        }
    }

    fn insert(&mut self, wish: Option<usize>, size: u8, use_no: u64) -> Result<usize, AllocError> {
        let slot = self.choose(wish);
        self.reach(slot)?;
        self.places[slot] = Some(Live {
            packet: Packet::of_size(size),
            use_no,
        });
        Ok(slot)
    }
}
