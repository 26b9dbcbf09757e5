//! What orders leave, in lines: packets, labels, devices, remove locks and cancel slots.

ghost use Rattle.std.specs.Prelude.{◌≡◌, ◌++◌, ◌&&◌, codes};
ghost use Rattle.std.specs.List.{enumerate_from, flat_map};
ghost use Rattle.irp_names.specs.Sinks.{Says};
ghost use Rattle.irp_names.specs.Small as small;
ghost use Rattle.irp_orders.specs.Ends as spec;
ghost use Rattle.irp_orders.specs.Facts as facts;

use crate::differing::PacketFacts;
use crate::text::{tell, tell_hexadecimal};
use irp_machine::{DeviceEnd, Holder, LiveEnd, LockEnd, SlotEnd};
use irp_names::{MajorWords, OwnerWords, PacketWords, SettingWords, Sink, StatusWords, told_if};
use irp_types::{CancelId, DeviceId, IrpRef, Location, Preparation, Setting};

/// Whether a reference names a live packet.
pub fn names(irp: &IrpRef, live: &LiveEnd) -> bool
    ensures { result ≡ facts.names irp.now live.now }
{
    live.slot == irp.slot && live.use_no == irp.use_no
}

/// The reference to a live packet.
pub fn reference_of(live: &LiveEnd) -> IrpRef
    ensures { result ≡ spec.reference_of live.now }
{
    IrpRef {
        slot: live.slot,
        use_no: live.use_no,
    }
}

/// Puts a label, where what it stands for names a live packet.
#[tactic(auto, using(irp_names::proofs::Saying::says_both))]
fn put_name_if(out: &mut Sink, live: &LiveEnd, label: &str, irp: &IrpRef)
    ensures { Says (small.told_if (facts.names irp.now live.now) (label.now ++ codes " = "))
        out.old out.new }
{
    if names(irp, live) {
        out.put(label);
        out.put(" = ");
    }
}

/// Puts the label at a place, where what it stands for names a live packet.
fn put_name_at(out: &mut Sink, live: &LiveEnd, named: &[IrpRef], place: usize, label: &String)
    ensures { Says (spec.name_text live.now named.now (place, label.now)) out.old out.new }
{
    if let Some(irp) = named.get(place) {
        put_name_if(out, live, label.as_str(), irp);
    }
}

/// Puts the labels that name a live packet, where they stand for these.
fn put_names(out: &mut Sink, live: &LiveEnd, labels: &[String], named: &[IrpRef])
    ensures { Says (spec.names_text live.now labels.now named.now) out.old out.new }
{
    for (place, label) in labels.iter().enumerate() {
        put_name_at(out, live, named, place, label);
    }
}

/// The words of a packet's preparation.
fn preparation_words(preparation: Preparation) -> &'static str
    ensures { result.now ≡ spec.preparation_text preparation }
{
    match preparation {
        Preparation::Nothing => "",
        Preparation::Filled => ", next location filled",
        Preparation::Skipped => ", skipped",
    }
}

/// Puts the information of a packet, where it is told.
fn put_information(out: &mut Sink, is_told: bool, information: u64)
    ensures { Says (small.told_if is_told (codes ", information " ++ small.hex_text information))
        out.old out.new }
{
    if is_told {
        tell_hexadecimal(out, ", information ", information);
    }
}

/// Puts the cancel routine that is set.
fn put_routine_set(out: &mut Sink, routine: Option<CancelId>)
    ensures { Says (spec.routine_set_text routine) out.old out.new }
{
    if let Some(id) = routine {
        tell(out, ", cancel routine ", id.0);
        out.put(" set");
    }
}

/// Puts the cancel routine that is set, where it is told.
fn put_routine(out: &mut Sink, is_told: bool, routine: Option<CancelId>)
    ensures { Says (small.told_if is_told (spec.routine_set_text routine)) out.old out.new }
{
    if is_told {
        put_routine_set(out, routine);
    }
}

/// Puts words, where both flags are set.
fn put_if(out: &mut Sink, is_told: bool, is_so: bool, words: &'static str)
    ensures { Says (small.told_if (is_told && is_so) words.now) out.old out.new }
{
    if is_told {
        out.put(told_if(is_so, words));
    }
}

/// Puts how far a packet is prepared, where it is told.
fn put_preparation(out: &mut Sink, is_told: bool, preparation: Preparation)
    ensures { Says (small.told_if is_told (spec.preparation_text preparation)) out.old out.new }
{
    if is_told {
        out.put(preparation_words(preparation));
    }
}

/// Puts these facts of a live packet.
fn put_facts(out: &mut Sink, facts: PacketFacts, live: &LiveEnd)
    ensures { Says (spec.facts_text facts live.now) out.old out.new }
{
    put_information(out, facts.information, live.information);
    put_if(out, facts.cancel, live.cancel, ", cancelled");
    put_routine(out, facts.cancel_routine, live.cancel_routine);
    let (is_told, pending) = (facts.pending_returned, live.pending_returned);
    put_if(out, is_told, pending, ", PendingReturned");
    put_if(out, facts.slot_held, live.slot_held, ", in a cancel slot");
    put_preparation(out, facts.preparation, live.preparation);
}

/// Puts the use of a packet that is live.
fn put_use(out: &mut Sink, live: &LiveEnd)
    ensures { Says (small.packet_text (spec.reference_of live.now)) out.old out.new }
{
    out.show(PacketWords(reference_of(live)));
}

/// Puts the line of a live packet, behind the labels that name it, with these further facts. Its locations have lines of
/// their own.
fn put_live(out: &mut Sink, facts: PacketFacts, labels: &[String], named: &[IrpRef], live: &LiveEnd)
    ensures { Says (spec.live_line facts labels.now named.now live.now) out.old out.new }
{
    out.put("    ");
    put_names(out, live, labels, named);
    put_use(out, live);
    tell(out, ": ", OwnerWords(live.owner));
    tell(out, ", current location ", live.current);
    tell(out, ", ", StatusWords(live.status));
    put_facts(out, facts, live);
    out.put("\n");
}

/// Puts the device of a location.
fn put_location_device(out: &mut Sink, device: Option<DeviceId>)
    ensures { Says (spec.location_device_text device) out.old out.new }
{
    if let Some(device) = device {
        tell(out, ", D", device.0);
    }
}

/// Puts the completion routine of a location.
fn put_location_setting(out: &mut Sink, setting: Option<Setting>)
    ensures { Says (spec.location_setting_text setting) out.old out.new }
{
    if let Some(setting) = setting {
        tell(out, ", ", SettingWords(setting));
    }
}

/// Puts the line of a location of a packet, by its number.
fn put_location(out: &mut Sink, number: u64, location: Location)
    ensures { Says (spec.location_line number location) out.old out.new }
{
    tell(out, "        location ", number);
    tell(out, ": ", MajorWords(location.major));
    tell_hexadecimal(out, ", word ", location.word);
    put_location_device(out, location.device);
    put_location_setting(out, location.setting);
    put_if(out, true, location.pending, ", marked pending");
    out.put("\n");
}

/// The number of the lowest location of a live packet that counts: the prepared one, or else the current one.
fn lowest_of(live: &LiveEnd) -> u32
    ensures { result ≡ spec.lowest_of live.now.preparation live.now.current }
{
    match live.preparation {
        Preparation::Nothing => live.current,
        Preparation::Filled | Preparation::Skipped => live.current.saturating_sub(1),
    }
}

/// Puts the location of a packet that is so far above the lowest one.
fn put_location_above(out: &mut Sink, lowest: u64, place: usize, location: Location)
    ensures { Says (spec.location_above lowest (place, location)) out.old out.new }
{
    put_location(out, lowest.saturating_add(place as u64), location);
}

/// Puts these locations, of which the first is the lowest one.
fn put_all_locations(out: &mut Sink, lowest: u64, locations: &[Location])
    ensures { Says (flat_map (spec.location_above lowest) (enumerate_from 0 locations.now))
        out.old out.new }
{
    for (place, location) in locations.iter().enumerate() {
        put_location_above(out, lowest, place, *location);
    }
}

/// Puts the locations of a live packet, from the lowest up.
fn put_locations(out: &mut Sink, live: &LiveEnd)
    ensures { Says (spec.locations_lines live.now) out.old out.new }
{
    put_all_locations(out, u64::from(lowest_of(live)), live.locations.as_slice());
}

/// Puts the line of a live packet, and its locations, where these are told.
#[tactic(auto, using(irp_names::proofs::Saying::says_both))]
pub fn put_packet(
    out: &mut Sink,
    facts: PacketFacts,
    labels: &[String],
    named: &[IrpRef],
    live: &LiveEnd,
)
    ensures { Says (spec.packet_lines facts labels.now named.now live.now) out.old out.new }
{
    put_live(out, facts, labels, named, live);
    if facts.locations {
        put_locations(out, live);
    }
}

/// Puts what a label stands for that names no live packet.
#[tactic(auto, using(irp_names::proofs::Saying::says_both))]
fn put_dead(out: &mut Sink, irp: IrpRef)
    ensures { Says (spec.dead_text irp) out.old out.new }
{
    if irp.use_no == 0 {
        out.put(": not bound");
    } else {
        tell(out, " = ", PacketWords(irp));
        out.put(": not live");
    }
}

/// Puts the line of a label that names no live packet, and what it stands for.
#[tactic(auto, using(irp_names::proofs::Saying::says_both))]
pub fn put_label(out: &mut Sink, label: &str, irp: IrpRef)
    ensures { Says (spec.dead_label_line label.now irp) out.old out.new }
{
    out.put("    ");
    out.put(label);
    put_dead(out, irp);
    out.put("\n");
}

/// Puts what a device is attached to.
fn put_lower(out: &mut Sink, lower: Option<DeviceId>)
    ensures { Says (spec.lower_text lower) out.old out.new }
{
    if let Some(lower) = lower {
        tell(out, ", attached to D", lower.0);
    }
}

/// Puts the driver and the remove lock of a device, where they are told.
#[tactic(auto, using(irp_names::proofs::Saying::says_both))]
fn put_driver(out: &mut Sink, is_told: bool, device: DeviceEnd)
    ensures { Says (small.told_if is_told (spec.driver_text device)) out.old out.new }
{
    if is_told {
        tell(out, ", driver ", device.driver.0);
        tell(out, ", remove lock ", device.lock.0);
    }
}

/// The words that say whether a device is live.
fn live_words(is_live: bool) -> &'static str
    ensures { result.now ≡ spec.live_text is_live }
{
    if is_live { ": live" } else { ": deleted" }
}

/// Puts the line of a device, by its number, and where it is wanted of which driver and remove lock.
#[tactic(auto, using(irp_names::proofs::Saying::says_both))]
pub fn put_device(out: &mut Sink, tells_driver: bool, number: usize, device: DeviceEnd)
    ensures { Says (spec.device_line tells_driver number device) out.old out.new }
{
    tell(out, "    D", number);
    out.put(live_words(device.live));
    put_lower(out, device.lower);
    put_driver(out, tells_driver, device);
    out.put("\n");
}

/// Puts who holds a remove lock, behind these words.
#[tactic(auto, using(irp_names::proofs::Saying::says_both))]
fn put_holder(out: &mut Sink, words: &str, holder: Holder)
    ensures { Says (spec.holder_text words.now holder) out.old out.new }
{
    tell(out, words, holder.seat);
    tell(out, " as tag ", holder.tag);
}

/// Puts who holds a remove lock, each behind these words.
fn put_all_holders(out: &mut Sink, words: &str, holders: &[Holder])
    ensures { Says (flat_map (spec.holder_text words.now) holders.now) out.old out.new }
{
    for holder in holders {
        put_holder(out, words, *holder);
    }
}

/// The same of a remove lock.
pub fn put_holders(out: &mut Sink, words: &str, lock: &LockEnd)
    ensures { Says (spec.holders_text words.now lock.now) out.old out.new }
{
    put_all_holders(out, words, lock.holders.as_slice());
}

/// The words that say whether removal has begun, by a remove lock's word.
fn removal_words(word: u64) -> &'static str
    ensures { result.now ≡ spec.removal_text word }
{
    if word % 2 == 1 {
        ", removal has begun"
    } else {
        ", removal hasn't begun"
    }
}

/// Puts whether removal has begun, by a remove lock's word.
fn put_removal(out: &mut Sink, word: u64)
    ensures { Says (spec.removal_text word) out.old out.new }
{
    out.put(removal_words(word));
}

/// Puts the line of a remove lock: its number, its word, and who holds it.
pub fn put_lock(out: &mut Sink, number: usize, lock: &LockEnd)
    ensures { Says (spec.lock_line number lock.now) out.old out.new }
{
    tell(out, "    remove lock ", number);
    tell_hexadecimal(out, ": word ", lock.word);
    put_removal(out, lock.word);
    put_holders(out, ", held by seat ", lock);
    out.put("\n");
}

/// Puts what stands in a cancel slot.
#[tactic(auto, using(irp_names::proofs::Saying::says_both))]
fn put_content(out: &mut Sink, content: u64)
    ensures { Says (spec.content_text content) out.old out.new }
{
    if content == 0 {
        out.put(": empty");
    } else {
        tell(out, ": use ", content);
        out.put(" stands in it");
    }
}

/// The words that say whether somebody asked for what stands in a cancel slot.
fn asked_words(flag: bool) -> &'static str
    ensures { result.now ≡ spec.asked_text flag }
{
    if flag {
        ", asked for"
    } else {
        ", not asked for"
    }
}

/// Puts whether somebody asked for what stands in a cancel slot.
fn put_asked(out: &mut Sink, flag: bool)
    ensures { Says (spec.asked_text flag) out.old out.new }
{
    out.put(asked_words(flag));
}

/// Puts the line of a cancel slot: its number, what stands in it, and whether somebody asked for it.
pub fn put_slot(out: &mut Sink, number: usize, slot: SlotEnd)
    ensures { Says (spec.slot_line number slot) out.old out.new }
{
    tell(out, "    cancel slot ", number);
    put_content(out, slot.content);
    put_asked(out, slot.flag);
    out.put("\n");
}
