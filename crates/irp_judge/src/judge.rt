//! A judge that is fed a history entry by entry.

ghost use Rattle.std.specs.Prelude.{◌≡◌, ◌+◌, ◌<◌, ◌^◌, List, [], ◌∷◌, ◌++◌, length, OnErr, OnOk};
ghost use Rattle.std.specs.Option.{option_copied};
ghost use Rattle.std.proofs.Props.{props};
ghost use Rattle.irp_types.specs.Refusals.{first_refusal};
ghost use Rattle.irp_types.specs.Standing.{StandingFacts};
ghost use Rattle.irp_types.specs.State.{AreTables, live_at};
ghost use Rattle.irp_types.specs.declared.entry.Entry.{Entry};
ghost use Rattle.irp_manager.specs.Keeps.{mapped};
ghost use Rattle.irp_manager.specs.ManagerStates.{Agrees, state_of};
ghost use Rattle.irp_transcript.specs.Headers.{IsHeader, fixed_of};
ghost use Rattle.irp_judge.specs.Causes.{cause_of};
ghost use Rattle.irp_judge.specs.Checked.{IsVerdict};
ghost use Rattle.irp_judge.specs.Judging.{HasJudged};
ghost use Rattle.irp_judge.specs.Looks.{looked};

use crate::cause::Cause;
use crate::causes::{cause_in, cause_of};
use crate::comparing::first_difference;
use crate::replaying::made_of;
use crate::verdict::{Verdict, Wrong};
use irp_manager::{Live, ManagerState, MapKeep};
use irp_transcript::Header;
use irp_types::{Call, Entry, IrpRef, Refusal, Reply, history_goes_on, history_settles_states};
use std::alloc::{AllocError, Global};

/// Judges a history that is fed to it, entry by entry. It keeps the state that the sequential manager is in, and what
/// is wrong with the first entry that isn't legal; it doesn't keep the entries. At any moment its answers are those of
/// `check` and `explain` on what it was fed (this project's own rule).
///
/// Contracts see it as the record `JudgeValue`: the header, how many entries it was fed, what is wrong, and the manager's
/// state.
#[derive(Drop)]
pub struct Judge<'a> {
    header: &'a Header,
    core: ManagerState<MapKeep>,
    fed: u64,
    wrong: Option<Wrong>,
    ghost agree: { AreTables (fixed_of header.now).tables } by { Prim.hlevel props },
    ghost stands: { StandingFacts header.now.completions (state_of mapped core) } by { Prim.hlevel props },
    ghost agrees: { Agrees (fixed_of header.now) core } by { Prim.hlevel props },
}

impl<'a> Judge<'a> {
    ghost use Rattle.irp_judge.specs.Judges.{seen};

    /// A judge that was fed nothing yet, on condition that the formats accept the header. It takes no memory.
    pub fn new(alloc: Global, header: &'a Header) -> Judge<'a>
        requires { IsHeader header.now }
        ensures header { (seen result).header ≡ header.now }
        ensures judged { HasJudged (seen result) [] }
    {
        let keep = MapKeep::new(alloc);
        Judge {
            header,
            core: ManagerState::with_limit(alloc, keep, header.locks, header.form.limit()),
            fed: 0,
            wrong: None,
        }
    }

    /// Makes the next entry again, unless one before it wasn't legal, and keeps what is wrong with it. It doesn't count.
    fn make_again(&mut self, entry: &Entry) -> Result<(), AllocError>
        ensures header { (seen self.new).header ≡ (seen self.old).header }
        ensures fed { self.new.fed ≡ self.old.fed }
        ensures judged { (history : List Entry) → HasJudged (seen self.old) history
            → OnOk result (HasJudged (record (seen self.new) { fed = self.new.fed + 1 })
            (history ++ entry.now ∷ [])) }
        ensures err { OnErr result (seen self.new ≡ seen self.old) }
    {
        if self.wrong.is_some() {
            return Ok(());
        }
        history_goes_on();
        history_settles_states();
        let made = made_of(&mut self.core, self.header, entry, self.fed)?;
        let Some(difference) = first_difference(entry, &made) else {
            return Ok(());
        };
        self.wrong = Some(Wrong {
            at: self.fed,
            difference,
            cause: cause_in(&self.core, made.call, made.reply),
            made,
        });
        Ok(())
    }

    /// Counts one entry more.
    fn count(&mut self)
        ensures header { (seen self.new).header ≡ (seen self.old).header }
        ensures counted { self.old.fed + 1 < 2 ^ 64
            → seen self.new ≡ record (seen self.old) { fed = self.old.fed + 1 } }
    {
        self.fed = self.fed.saturating_add(1);
    }

    /// Judges the next entry of the history. Behind one that isn't legal it only counts. Its answers are exact for the
    /// first 2⁶⁴ - 1 entries.
    ///
    /// # Errors
    ///
    /// `AllocError` where a growth was refused. Nothing changes then, and the entry may be fed again.
    pub fn feed(&mut self, entry: &Entry) -> Result<(), AllocError>
        ensures header { (seen self.new).header ≡ (seen self.old).header }
        ensures judged { (history : List Entry) → HasJudged (seen self.old) history
            → length history + 1 < 2 ^ 64
            → OnOk result (HasJudged (seen self.new) (history ++ entry.now ∷ [])) }
        ensures err { OnErr result (seen self.new ≡ seen self.old) }
    {
        self.make_again(entry)?;
        self.count();
        Ok(())
    }

    /// How many entries it was fed.
    pub fn fed(&self) -> u64
        ensures { result ≡ (seen self.now).fed }
    {
        self.fed
    }

    /// What is wrong with what it was fed; none where that is a legal history.
    pub fn wrong(&self) -> Option<&Wrong>
        ensures { option_copied result ≡ (seen self.now).wrong }
    {
        self.wrong.as_ref()
    }

    /// Gives what is wrong with what it was fed; none where that is a legal history.
    pub fn into_wrong(self) -> Option<Wrong>
        ensures { result ≡ self.entry.wrong }
    {
        self.wrong
    }

    /// The verdict on what it was fed.
    pub fn verdict(&self) -> Verdict
        ensures { (history : List Entry) → HasJudged (seen self.now) history
            → IsVerdict (fixed_of (seen self.now).header) history result }
    {
        match &self.wrong {
            None => Verdict::Legal { entries: self.fed },
            Some(wrong) => Verdict::Illegal { at: wrong.at },
        }
    }

    /// What a call would be refused with now, and none where the manager would carry it out. `drained` is what its
    /// caller would know of the lock of the device that a Delete names. Behind an entry that isn't legal the state is
    /// that behind the manager's own entry in its place.
    pub fn would(&self, call: Call, drained: bool) -> Option<Refusal>
        ensures { result ≡ first_refusal (fixed_of (seen self.now).header) (seen self.now).state drained call }
    {
        let drivers = self.header.drivers.as_slice().len() as u32;
        self.core
            .first_refusal(self.header.completions, drivers, call, drained)
    }

    /// What a Look of this packet would be replied with now: what it shows, or the refusal. Behind an entry that isn't
    /// legal the state is as `would` says.
    pub fn look(&self, irp: IrpRef) -> Reply
        ensures { result ≡ looked (seen self.now).state irp }
    {
        let Some(live) = self.core.live(irp.slot) else {
            return Reply::Refused(Refusal::NoIrp);
        };
        match self.would(Call::Look { irp }, false) {
            Some(refusal) => Reply::Refused(refusal),
            None => Reply::Seen(live.packet.seen()),
        }
    }

    /// The live packet at this slot, with the number of its use; none where no packet is live there. Behind an entry that
    /// isn't legal the state is as `would` says.
    pub fn live(&self, slot: usize) -> Option<&Live>
        ensures { option_copied result ≡ live_at (seen self.now).state slot }
    {
        self.core.live(slot)
    }

    /// What of the present state a refusal of this call comes from.
    pub fn cause(&self, call: Call, refusal: Refusal) -> Cause
        ensures { result ≡ cause_of (seen self.now).state call refusal }
    {
        cause_of(&self.core, call, refusal)
    }
}
