//! A script that is run step by step.

ghost use Rattle.std.specs.Prelude.{◌≡◌, IfOk, IfSome, Some};
ghost use Rattle.irp_types.specs.Histories.{LeadsTo};
ghost use Rattle.irp_script_reader.specs.Sound.{IsSound};
ghost use Rattle.irp_machine.specs.Headers.{IsHeaderOf};
ghost use Rattle.irp_machine.specs.Machine.{act_of};
ghost use Rattle.irp_machine.specs.Runs.{RunsOn, act_in, setup_run, steps_run};

use crate::machine::ScriptMachine;
use crate::opening::{first_standing, machine_of, opened};
use crate::parts::Planned;
use crate::replaying::play_in;
use crate::standing::Standing;
use irp_plain::After;
use irp_script_reader::ScriptParts;
use irp_transcript::Header;
use irp_types::Entry;
use std::alloc::{AllocError, Global};
use std::marker::Model;

/// A script that is run: its setup, and then its steps. Each call is recorded, and the entries are a legal history.
///
/// Contracts see it as the record `RunValue` of this crate.
#[derive(Drop)]
pub struct Run<'a> {
    header: &'a Header,
    script: &'a ScriptParts,
    machine: ScriptMachine<'a>,
    standing: Standing,
    entries: Vec<Entry>,
}

impl<'a> Model for Run<'a> {
    ghost use Rattle.std.specs.Prelude.{◌≡◌};
    ghost use Rattle.irp_types.specs.Histories.{LeadsTo};
    ghost use Rattle.irp_transcript.specs.Headers.{fixed_of};
    ghost use Rattle.irp_script_reader.specs.Sound.{IsSound};
    ghost use Rattle.irp_machine.specs.Headers.{IsHeaderOf};
    ghost use Rattle.irp_machine.specs.Runs.{RunValue};
    ghost use Rattle.std.specs.Coded.{codes};
    ghost use Rattle.std.specs.FinMap as fin;

    ghost Value = { RunValue };

    ghost coded = { Prim.hlevel (codes, fin.code) };

    ghost view = { λ own. record {
      header = own.header.now;
      script = own.script.now;
      rules = own.machine;
      standing = own.standing;
      entries = own.entries.items;
    } };

    ghost invariant = { λ own. IsHeaderOf own.script.now own.header.now × IsSound own.script.now
        × (own.machine.fixed ≡ fixed_of own.header.now)
        × LeadsTo own.machine.fixed own.entries.items own.standing.manager.state };
}

impl<'a> Run<'a> {
    /// The run of a script's setup, of which nothing is made yet.
    ///
    /// # Errors
    ///
    /// `AllocError` where memory runs out, or the setup has 2^32 steps or more.
    pub fn new(
        alloc: Global,
        header: &'a Header,
        script: &'a ScriptParts,
    ) -> Result<Run<'a>, AllocError>
        requires headed { IsHeaderOf script.now header.now }
        requires sound { IsSound script.now }
        ensures { IfOk result (λ run. run ≡ setup_run header.now script.now) }
    {
        let setup = script.setup.as_slice();
        Ok(Run {
            header,
            script,
            machine: machine_of(alloc, header, script, &[], setup, false)?,
            standing: first_standing(alloc, header, script)?,
            entries: Vec::new(alloc),
        })
    }

    /// The run of the script's steps, of which nothing is made yet, behind what this one has made.
    ///
    /// # Errors
    ///
    /// `AllocError` where memory runs out, or there are 2^32 steps or more.
    pub fn behind(self, alloc: Global) -> Result<Run<'a>, AllocError>
        ensures { IfOk result (λ run. run ≡ steps_run self.entry) }
    {
        let (header, script) = (self.header, self.script);
        let steps = script.steps.as_slice();
        Ok(Run {
            header,
            script,
            machine: machine_of(alloc, header, script, steps, steps, false)?,
            standing: opened(alloc, header, self.standing)?,
            entries: self.entries,
        })
    }

    /// The act that a seat is in, or its next one, where that is the step of this place.
    fn act_in(&self, seat: u32, step: usize) -> Option<Planned>
        ensures act { result ≡ act_in step (act_of self.now.rules self.now.standing seat) }
        ensures there { IfSome result (λ planned.
            act_of self.now.rules self.now.standing seat ≡ Some planned) }
    {
        match self.machine.act_of(&self.standing, seat as usize) {
            Some(planned) if planned.place.step as usize == step => Some(planned),
            _ => None,
        }
    }

    /// Makes the next atomic step of a seat, where that is in the step of this place, and tells where the seat is behind
    /// it. Nothing is made, and None told, where the seat has no step left, or is in another one.
    pub fn play(self, seat: u32, step: usize) -> Result<(Run<'a>, Option<After>), AllocError>
        ensures plays { IfOk result (λ played. RunsOn self.entry seat
            (act_in step (act_of self.entry.rules self.entry.standing seat)) played.1 played.0) }
    {
        let Some(planned) = self.act_in(seat, step) else {
            return Ok((self, None));
        };
        let (machine, mut standing, mut entries) = (self.machine, self.standing, self.entries);
        let behind = play_in(&machine, &mut entries, &mut standing, seat, planned)?;
        let run = Run {
            header: self.header,
            script: self.script,
            machine,
            standing,
            entries,
        };
        Ok((run, Some(behind)))
    }

    /// Where the script stands.
    pub fn standing(&self) -> &Standing
        ensures { result.now ≡ self.now.standing }
    {
        &self.standing
    }

    /// The calls that were recorded: a legal history.
    pub fn entries(&self) -> &[Entry]
        ensures entries { result.now ≡ self.now.entries }
        ensures legal { LeadsTo self.now.rules.fixed self.now.entries
            self.now.standing.manager.state }
    {
        self.entries.as_slice()
    }
}
