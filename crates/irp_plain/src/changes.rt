//! What an atomic step changes, at locks and slots.

ghost use Rattle.std.specs.Prelude.{◌≡◌};
ghost use Rattle.irp_plain.specs.Changes as spec;
ghost use Rattle.irp_plain.specs.Changes.{only};
ghost use Rattle.irp_plain.specs.declared.parts.After.TheVariants.{In};

use crate::answered::Answered;
use crate::parts::{
    After, Change, Given, Held, Learned, NewLabel, NewSlot, NewWord, Slot, Stage, Taken,
};
use crate::seat_state::{SeatState, knows_removed, place_of};
use irp_transcript::WordReply;
use irp_types::{Hand, IrpRef, LockAct};

/// How many references a seat may hold.
const MOST_HELD: usize = 64;

/// Words from here on aren't added to. No script gets there.
const FULL: u64 = 1 << 62;

/// Nothing changes but how far the seat is.
pub fn only(after: After) -> Change
    ensures { result ≡ spec.only after }
{
    Change {
        after,
        word: None,
        slot: None,
        label: None,
        drops: None,
        holds: None,
        gives: None,
        learns: None,
        spends: None,
        takes: None,
    }
}

/// The seat is answered so, and nothing else changes.
pub fn told(reply: WordReply) -> Change
    ensures { result ≡ spec.told reply }
{
    only(After::Told(Answered::Word(reply)))
}

/// The seat goes on in its act, and nothing else changes.
pub fn going(stage: Stage) -> Change
    ensures { result ≡ only (In stage) }
{
    only(After::In(stage))
}

/// The label stands for this packet from now on, and the act is over.
pub fn bound(label: usize, irp: IrpRef) -> Change
    ensures { result ≡ spec.bound label irp }
{
    Change {
        label: Some(NewLabel { label, irp }),
        ..only(After::Bound)
    }
}

/// A word that 2 was added to.
fn added(word: u64) -> u64
    ensures { result ≡ spec.added word }
{
    if word >= FULL {
        return word;
    }
    word + 2
}

/// A word that 2 was taken from.
fn taken_from(word: u64) -> u64
    ensures { result ≡ spec.taken_from word }
{
    if word < 2 {
        return word;
    }
    word - 2
}

/// A word with its removed bit set.
fn with_bit(word: u64) -> u64
    ensures { result ≡ spec.with_bit word }
{
    if word % 2 == 0 {
        return word + 1;
    }
    word
}

/// The first step of an acquire: it adds to the word.
fn acquire(word: u64, lock: u32, tag: u32) -> Change
    ensures { result ≡ spec.acquire word lock tag }
{
    let word_then = Some(NewWord {
        lock,
        word: added(word),
    });
    if word % 2 == 0 {
        return Change {
            word: word_then,
            holds: Some(Held { lock, tag }),
            ..told(WordReply::Acquired)
        };
    }
    Change {
        word: word_then,
        ..going(Stage::Tried)
    }
}

/// The next step of an acquire: it takes back what it added where the removal had begun; else it is refused without a
/// step, or adds to the word.
fn acquiring(word: u64, seat: &SeatState, lock: u32, tag: u32) -> Change
    ensures { result ≡ spec.acquiring word seat.now lock tag }
{
    if let Stage::Tried = seat.stage() {
        return Change {
            word: Some(NewWord {
                lock,
                word: taken_from(word),
            }),
            ..told(WordReply::DeletePending)
        };
    }
    if seat.held().len() >= MOST_HELD {
        return told(WordReply::SeatFull);
    }
    if knows_removed(seat.learned(), lock) {
        return told(WordReply::DeletePending);
    }
    acquire(word, lock, tag)
}

/// The reference at a place is given back.
fn given_back(word: u64, lock: u32, place: usize) -> Change
    ensures { result ≡ spec.given_back word lock place }
{
    Change {
        word: Some(NewWord {
            lock,
            word: taken_from(word),
        }),
        drops: Some(place),
        ..told(WordReply::Done)
    }
}

/// The first reference under a tag is given back, where there is one.
fn releasing(word: u64, seat: &SeatState, lock: u32, tag: u32) -> Change
    ensures { result ≡ spec.releasing word seat.now lock tag }
{
    match place_of(seat.held(), lock, tag) {
        Some(place) => given_back(word, lock, place),
        None => told(WordReply::NotHeld),
    }
}

/// The step of a begin-remove that sets the bit.
fn begin(word: u64, lock: u32) -> Change
    ensures { result ≡ spec.begin word lock }
{
    let after = if word % 2 == 0 {
        After::In(Stage::Begun)
    } else {
        After::Told(Answered::Word(WordReply::AlreadyRemoving))
    };
    Change {
        word: Some(NewWord {
            lock,
            word: with_bit(word),
        }),
        learns: Some(Learned::Removed(lock)),
        ..only(after)
    }
}

/// The next step of a begin-remove: it gives the reference back where it has begun the removal; else it is refused
/// without a step, or sets the bit.
fn beginning(word: u64, seat: &SeatState, lock: u32, tag: u32) -> Change
    ensures { result ≡ spec.beginning word seat.now lock tag }
{
    if let Stage::Begun = seat.stage() {
        return releasing(word, seat, lock, tag);
    }
    if place_of(seat.held(), lock, tag).is_none() {
        return told(WordReply::NotHeld);
    }
    begin(word, lock)
}

/// The step of a look at whether a lock is drained.
fn looking(word: u64, lock: u32) -> Change
    ensures { result ≡ spec.looking word lock }
{
    if word == 1 {
        return Change {
            learns: Some(Learned::Drained(lock)),
            ..told(WordReply::Yes)
        };
    }
    told(WordReply::Busy { word })
}

/// What an act on a remove lock changes in its next step, where the lock has this word.
fn on_word(word: u64, seat: &SeatState, act: LockAct) -> Change
    ensures { result ≡ spec.on_word word seat.now act }
{
    match act {
        LockAct::Acquire { lock, tag } => acquiring(word, seat, lock.0, tag),
        LockAct::Release { lock, tag } => releasing(word, seat, lock.0, tag),
        LockAct::BeginRemove { lock, tag } => beginning(word, seat, lock.0, tag),
        LockAct::Drained { lock } => looking(word, lock.0),
    }
}

/// The lock of an act.
fn lock_of(act: LockAct) -> u32
    ensures { result ≡ spec.lock_of act }
{
    match act {
        LockAct::Acquire { lock, .. }
        | LockAct::Release { lock, .. }
        | LockAct::BeginRemove { lock, .. }
        | LockAct::Drained { lock } => lock.0,
    }
}

/// What an act on a remove lock changes in its next step.
pub fn on_lock(words: &[u64], seat: &SeatState, act: LockAct) -> Change
    ensures { result ≡ spec.on_lock words.now seat.now act }
{
    match words.get(lock_of(act) as usize) {
        Some(word) => on_word(*word, seat, act),
        None => told(WordReply::NoLock),
    }
}

/// What a hand of a reference changes that the seat holds at a place. The other seat holds so many.
fn handing(hand: Hand, place: usize, taker_holds: usize) -> Change
    ensures { result ≡ spec.handing hand place taker_holds }
{
    if taker_holds >= MOST_HELD {
        return told(WordReply::SeatFull);
    }
    let held = Held {
        lock: hand.lock.0,
        tag: hand.tag,
    };
    Change {
        drops: Some(place),
        gives: Some(Given {
            seat: hand.to,
            held,
        }),
        ..told(WordReply::Done)
    }
}

/// How many references a seat holds: none where there is no such seat.
fn count_held(seats: &[SeatState], seat: u32) -> usize
    ensures { result ≡ spec.count_held seats.now seat }
{
    match seats.get(seat as usize) {
        Some(own) => own.held().len(),
        None => 0,
    }
}

/// What a hand changes.
pub fn hand(words: &[u64], seats: &[SeatState], seat: &SeatState, hand: Hand) -> Change
    ensures { result ≡ spec.hand words.now seats.now seat.now hand }
{
    if hand.lock.0 as usize >= words.len() {
        return told(WordReply::NoLock);
    }
    match place_of(seat.held(), hand.lock.0, hand.tag) {
        Some(place) => handing(hand, place, count_held(seats, hand.to)),
        None => told(WordReply::NotHeld),
    }
}

/// What stands in a slot is taken out. Where nothing does, the seat is answered so.
fn take_out(number: u32, slot: Slot, missed: WordReply) -> Change
    ensures { result ≡ spec.take_out number slot missed }
{
    let slot_then = Some(NewSlot {
        number,
        slot: Slot { content: 0, ..slot },
    });
    if slot.content == 0 {
        return Change {
            slot: slot_then,
            ..told(missed)
        };
    }
    let use_no = slot.content;
    Change {
        slot: slot_then,
        takes: Some(Taken {
            slot: number,
            use_no,
        }),
        ..told(WordReply::Taken { use_no })
    }
}

/// The step of a publication that swaps the use in, where the owner hasn't published before.
fn swap_in(number: u32, slot: Slot, use_no: u64) -> Change
    ensures { result ≡ spec.swap_in number slot use_no }
{
    if slot.used {
        return told(WordReply::Used);
    }
    let slot_then = Slot {
        content: use_no,
        used: true,
        ..slot
    };
    Change {
        slot: Some(NewSlot {
            number,
            slot: slot_then,
        }),
        ..going(Stage::Published)
    }
}

/// The step of a publication that reads the flag.
fn check(number: u32, slot: Slot) -> Change
    ensures { result ≡ spec.check number slot }
{
    if slot.flag {
        return going(Stage::FoundSet);
    }
    Change {
        slot: Some(NewSlot {
            number,
            slot: Slot {
                stands: true,
                ..slot
            },
        }),
        ..told(WordReply::Standing)
    }
}

/// The next step of a publication.
fn publishing(number: u32, slot: Slot, stage: Stage, use_no: u64) -> Change
    ensures { result ≡ spec.publishing number slot stage use_no }
{
    match stage {
        Stage::Published => check(number, slot),
        Stage::FoundSet => take_out(number, slot, WordReply::Lost),
        _ => swap_in(number, slot, use_no),
    }
}

/// What a publication changes in its next step.
pub fn publish(slots: &[Slot], number: u32, stage: Stage, use_no: u64) -> Change
    ensures { result ≡ spec.publish slots.now number stage use_no }
{
    match slots.get(number as usize) {
        Some(slot) => publishing(number, *slot, stage, use_no),
        None => told(WordReply::NoSlot),
    }
}

/// What a withdrawal changes: it swaps 0 in where the owner's use stands.
pub fn withdraw(slots: &[Slot], number: u32) -> Change
    ensures { result ≡ spec.withdraw slots.now number }
{
    match slots.get(number as usize) {
        Some(slot) if slot.stands => {
            take_out(
                number,
                Slot {
                    stands: false,
                    ..*slot
                },
                WordReply::Lost,
            )
        }
        _ => told(WordReply::NotStanding),
    }
}

/// The next step of a request: it sets the flag, and then swaps 0 in.
fn requesting(number: u32, slot: Slot, stage: Stage) -> Change
    ensures { result ≡ spec.requesting number slot stage }
{
    if let Stage::Flagged = stage {
        return take_out(number, slot, WordReply::Nothing);
    }
    Change {
        slot: Some(NewSlot {
            number,
            slot: Slot { flag: true, ..slot },
        }),
        ..going(Stage::Flagged)
    }
}

/// What a request changes in its next step.
pub fn request(slots: &[Slot], number: u32, stage: Stage) -> Change
    ensures { result ≡ spec.request slots.now number stage }
{
    match slots.get(number as usize) {
        Some(slot) => requesting(number, *slot, stage),
        None => told(WordReply::NoSlot),
    }
}
