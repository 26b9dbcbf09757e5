//! One packet: its locations and what stands beside them, with the calls that look at nothing but the packet.
#![tactic(auto)]

mod packet;

pub use packet::Packet;
