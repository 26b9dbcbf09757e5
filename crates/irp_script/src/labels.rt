//! The labels of a script while it runs.

ghost use Rattle.std.specs.Prelude.{◌≡◌, ◌<◌, IfOk, is_some, slice_get, slice_set};
ghost use Rattle.std.specs.List.{list_any};
ghost use Rattle.std.specs.Option.{option_flatten};
ghost use Rattle.irp_steps.specs.Labels.{label_of, learned};
ghost use Rattle.irp_steps.specs.StepKinds.{named_by};
ghost use Rattle.irp_script.specs.Labels.{
  IsNamed,
  binding_of,
  binds_label,
  known_behind,
  known_reading,
  known_to,
  label_apart,
  label_named,
  marked,
  marks_apart,
  names_apart,
  none_bound,
  places_kept,
  reading_of,
};

use crate::binding::{Binding, NamedPacket, Reading, Source};
use irp_script_reader::{Named, Step, StepAct};
use irp_steps::{UNBOUND, label_of, named_by, packet_in, packet_of};
use irp_types::{IrpRef, Reply};
use std::alloc::{AllocError, Global};
use std::marker::Model;
use std::sync::{Mutex, Wait};

/// What each label of a script stands for.
#[derive(Drop)]
pub struct Bindings {
    packets: Vec<IrpRef>,
}

/// What a worker, of this number, knows of the labels of a script: what each stands for by the steps of the setup and by
/// its own, and which of them other workers bind. By the places of its steps it also keeps what they bound, and what they
/// took from steps of other workers.
#[derive(Drop)]
pub struct Known {
    number: u32,
    bindings: Bindings,
    apart: Vec<bool>,
    written: Vec<Option<Binding>>,
    read: Vec<Option<Reading>>,
}

impl Model for Known {
    ghost use Rattle.irp_script.specs.Labels.{Known as Knows};

    ghost Value = { Knows };

    ghost view = { λ known. record {
      number = known.number;
      packets = known.bindings.packets.items;
      apart = known.apart.items;
      written = known.written.items;
      read = known.read.items;
    } };
}

/// The packet that each label of a run stands for.
#[derive(Drop)]
struct SharedBindings {
    packets: Vec<NamedPacket>,
}

/// The labels of a run, for those that several workers bind or read. All workers share them.
#[derive(Drop)]
pub struct Labels {
    bindings: Mutex<SharedBindings>,
}

/// The label that a step binds, if it is one of another one of so many workers.
fn label_apart(number: u32, workers: u32, step: Step) -> Option<usize>
    requires { 0 < workers }
    ensures { result ≡ label_apart number workers step }
{
    if step.seat % workers == number {
        return None;
    }
    label_of(step.act)
}

/// Whether an act binds a label.
fn binds_label(act: StepAct) -> bool
    ensures { result ≡ is_some (label_of act) }
{
    label_of(act).is_some()
}

/// Whether one of these steps binds a label.
fn bind_labels(steps: &[Step]) -> bool
    ensures { result ≡ list_any binds_label steps.now }
{
    steps.iter().any(|step| binds_label(step.act))
}

/// The label by which an act names its packet. None for an act that doesn't.
fn label_named(act: StepAct) -> Option<usize>
    ensures { result ≡ label_named (named_by act) }
{
    match named_by(act) {
        Some(Named::Label(label)) => Some(label),
        _ => None,
    }
}

/// The label with the packet, where there are both.
fn binding_of(label: Option<usize>, irp: Option<IrpRef>) -> Option<Binding>
    ensures { result ≡ binding_of label irp }
{
    match (label, irp) {
        (Some(label), Some(irp)) => Some(Binding { label, irp }),
        _ => None,
    }
}

/// The label by which an act named this packet, with the packet, where it was taken from a step of another worker.
fn reading_of(act: StepAct, named: NamedPacket) -> Option<Reading>
    ensures { result ≡ reading_of act named }
{
    match (binding_of(label_named(act), Some(named.irp)), named.source) {
        (Some(binding), Some(source)) => Some(Reading { binding, source }),
        _ => None,
    }
}

impl Bindings {
    /// The label that an act binds stands for the packet that it was answered by, if it was, from now on.
    fn learn(&mut self, act: StepAct, reply: Reply)
        ensures { self.new.packets.items ≡ learned self.old.packets.items act reply }
    {
        let Some(label) = label_of(act) else {
            return;
        };
        let Some(irp) = packet_in(reply) else {
            return;
        };
        if label < self.packets.len() {
            self.packets[label] = irp;
        }
    }
}

/// Marks a label, if there is one and it has a mark.
fn mark(marks: &mut Vec<bool>, label: Option<usize>)
    ensures { marks.new.items ≡ marked marks.old.items label }
{
    if let Some(label) = label {
        if label < marks.len() {
            marks[label] = true;
        }
    }
}

/// Which labels, of so many, other ones of so many workers bind in these steps.
fn bound_apart(
    alloc: Global,
    count: usize,
    number: u32,
    workers: u32,
    steps: &[Step],
) -> Result<Vec<bool>, AllocError>
    requires { 0 < workers }
    ensures { IfOk result (λ apart. apart.items ≡ marks_apart number workers steps.now count) }
{
    let mut apart = vec![in alloc; false; count]?;
    for step in steps {
        mark(&mut apart, label_apart(number, workers, *step));
    }
    Ok(apart)
}

/// For how many of so many workers' steps it is kept what they bind and take of labels that they share: for each. Where
/// there is one worker, or no step binds a label, for none.
fn places_kept(workers: u32, steps: &[Step]) -> usize
    ensures { result ≡ places_kept workers steps.now }
{
    if workers <= 1 {
        return 0;
    }
    if !bind_labels(steps) {
        return 0;
    }
    steps.len()
}

/// Keeps what the step of this place bound, where this is kept. It takes no memory.
fn keep_binding(kept: &mut Vec<Option<Binding>>, place: u32, binding: Option<Binding>)
    ensures { kept.new.items ≡ slice_set kept.old.items place binding }
{
    let place = place as usize;
    if place < kept.len() {
        kept[place] = binding;
    }
}

/// Keeps what the step of this place took from another worker's, where this is kept. It takes no memory.
fn keep_reading(kept: &mut Vec<Option<Reading>>, place: u32, reading: Option<Reading>)
    ensures { kept.new.items ≡ slice_set kept.old.items place reading }
{
    let place = place as usize;
    if place < kept.len() {
        kept[place] = reading;
    }
}

impl Known {
    /// So many labels, of which none is bound, and which no other worker binds. What steps bind and read isn't kept.
    ///
    /// # Errors
    ///
    /// `AllocError` where a growth was refused.
    pub fn new(alloc: Global, count: usize) -> Result<Known, AllocError>
        ensures { IfOk result (λ known. known ≡ none_bound count) }
    {
        let packets = vec![in alloc; UNBOUND; count]?;
        Ok(Known {
            number: 0,
            bindings: Bindings { packets },
            apart: Vec::new(alloc),
            written: Vec::new(alloc),
            read: Vec::new(alloc),
        })
    }

    /// What one of so many workers knows where these steps begin, of which it makes its own. There is room for all that
    /// they bind and read of labels that workers share.
    ///
    /// # Errors
    ///
    /// `AllocError` where a growth was refused.
    pub fn known_to(
        &self,
        alloc: Global,
        number: u32,
        workers: u32,
        steps: &[Step],
    ) -> Result<Known, AllocError>
        requires { 0 < workers }
        ensures { IfOk result (λ known. known ≡ known_to number workers steps.now self.now) }
    {
        let packets = self.bindings.packets.to_vec(alloc)?;
        let apart = bound_apart(alloc, packets.len(), number, workers, steps)?;
        let places = places_kept(workers, steps);
        let written = vec![in alloc; None; places]?;
        let read = vec![in alloc; None; places]?;
        Ok(Known {
            number,
            bindings: Bindings { packets },
            apart,
            written,
            read,
        })
    }

    /// Whether an act names its packet by a label that another worker binds.
    fn is_apart(&self, act: StepAct) -> bool
        ensures { result ≡ names_apart self.now.apart (named_by act) }
    {
        match named_by(act) {
            Some(Named::Label(label)) => match self.apart.get(label) {
                Some(apart) => *apart,
                None => false,
            },
            _ => false,
        }
    }

    /// The packet that an act names by what is known. Where another worker binds the label, and a step of another worker
    /// was the last to bind it, it is the packet of that step. Where the act names none, it is one that is never live. No
    /// clause here names what lies under the labels' lock: what that step bound is looked up once all workers are done.
    pub fn packet_of(&self, rt: &impl Wait, labels: &Labels, act: StepAct) -> NamedPacket
        ensures { IsNamed self.now act result }
    {
        if self.is_apart(act) {
            let named = labels.standing(rt, label_named(act));
            if let Some(source) = named.source {
                if source.worker != self.number {
                    return named;
                }
            }
        }
        let irp = packet_of(self.bindings.packets.as_slice(), act);
        NamedPacket { irp, source: None }
    }

    /// The step of this place, which has this act, named this packet. It is kept where it was taken from a step of another
    /// worker.
    pub fn took(&mut self, place: u32, act: StepAct, named: NamedPacket)
        ensures { self.new ≡ known_reading place self.old act named }
    {
        keep_reading(&mut self.read, place, reading_of(act, named));
    }

    /// The label that the act of the step of this place binds stands for the packet that it was answered by, if it was,
    /// from now on: for the worker, and among the labels of the run. What it bound is kept.
    pub fn learn(&mut self, rt: &impl Wait, labels: &Labels, place: u32, act: StepAct, reply: Reply)
        ensures { self.new ≡ known_behind place self.old act reply }
    {
        self.bindings.learn(act, reply);
        let binding = binding_of(label_of(act), packet_in(reply));
        keep_binding(&mut self.written, place, binding);
        let worker = self.number;
        labels.learn(rt, binding, Source { worker, place });
    }

    /// The label that the step of this place bound, with its packet. None where it bound none.
    pub fn written_at(&self, place: u32) -> Option<Binding>
        ensures { result ≡ option_flatten (slice_get self.now.written place) }
    {
        match self.written.get(place as usize) {
            Some(binding) => *binding,
            None => None,
        }
    }

    /// What the steps took from steps of other workers, by their places.
    pub fn readings(&self) -> &[Option<Reading>]
        ensures { result.now ≡ self.now.read }
    {
        self.read.as_slice()
    }
}

impl SharedBindings {
    /// What a label stands for.
    fn at(&self, label: Option<usize>) -> NamedPacket {
        let irp = UNBOUND;
        let unbound = NamedPacket { irp, source: None };
        match label {
            Some(label) => *self.packets.get(label).unwrap_or(&unbound),
            None => unbound,
        }
    }

    /// A label stands for a packet from now on, bound by this step.
    fn learn(&mut self, binding: Binding, source: Source) {
        if binding.label < self.packets.len() {
            let irp = binding.irp;
            let source = Some(source);
            self.packets[binding.label] = NamedPacket { irp, source };
        }
    }
}

impl Labels {
    /// The labels of a run in which this is known: each stands for what it is known to stand for.
    ///
    /// # Errors
    ///
    /// `AllocError` where a growth was refused.
    pub fn new(alloc: Global, known: &Known) -> Result<Labels, AllocError> {
        let mut packets = Vec::new(alloc);
        for irp in known.bindings.packets.as_slice() {
            let irp = *irp;
            packets.push(NamedPacket { irp, source: None })?;
        }
        Ok(Labels {
            bindings: Mutex::new(SharedBindings { packets }),
        })
    }

    /// What a label stands for at that moment.
    fn standing(&self, rt: &impl Wait, label: Option<usize>) -> NamedPacket {
        self.bindings.lock(rt).at(label)
    }

    /// Binds the label, where the step bound one.
    fn learn(&self, rt: &impl Wait, binding: Option<Binding>, source: Source) {
        if let Some(binding) = binding {
            self.bindings.lock(rt).learn(binding, source);
        }
    }
}
