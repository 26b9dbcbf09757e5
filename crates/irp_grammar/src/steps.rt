//! Steps, each by its line, and a stack of devices in one line.

ghost use Rattle.std.specs.Prelude.{[], ◌∷◌, ◌≡◌, ◌⊎◌, ◌-◌, IfSome, OnSome};
ghost use Rattle.irp_grammar.specs.Heads.{TakesSeat};
ghost use Rattle.irp_grammar.specs.Lines.{ahead};
ghost use Rattle.irp_grammar.specs.Reading as spec;
ghost use Rattle.irp_grammar.specs.Reading.{CreatesDevice, CreatesDevices, IsHeaded, IsStack, OnlyGives, TakesDevice, TakesLock, attachment, attachments, given_of, members_of, with_device, with_given, with_steps};

use crate::cursor::Cursor;
use crate::members::add;
use crate::said::Said;
use crate::step_line::{NONE, StepLine, Value, Values};
use crate::wanted::Wanted;
use irp_forms::{ActKind, Part};
use irp_script_reader::{Condition, Section};

/// What stands before a step on its line: the section above, its seat, and what it hangs on.
#[derive(Clone, Copy)]
struct Head {
    section: Section,
    seat: u32,
    condition: Option<Condition>,
}

impl Head {
    /// The step with this word and these values.
    fn step(self, act: ActKind, values: Values) -> StepLine
        ensures act { result.act ≡ act }
        ensures values { result.values ≡ values }
        ensures head { IsHeaded self.seat self.condition result }
    {
        StepLine {
            seat: self.seat,
            act,
            values,
            condition: self.condition,
        }
    }
}

/// These two values.
fn two(one: u64, other: u64) -> Values
    ensures { result ≡ spec.two one other }
{
    let mut values = NONE;
    values[0] = Value::Number(one);
    values[1] = Value::Number(other);
    values
}

impl<'a> Said<'a> {
    /// Counts a device, where a step creates one.
    fn count_device(&mut self, act: ActKind)
        ensures given { given_of self.new ≡ with_device act (given_of self.old) }
        ensures said { OnlyGives self.old self.new }
    {
        if matches!(act, ActKind::CreateDevice) {
            self.devices = self.devices.saturating_add(1);
        }
    }

    /// Takes a step; none where memory runs out.
    fn add_step(&mut self, section: Section, step: StepLine) -> Option<()>
        ensures { OnSome result
            (members_of self.new ≡ with_steps section (step ∷ [])
            (with_given (with_device step.act (given_of self.old)) (members_of self.old))) }
    {
        self.count_device(step.act);
        match section {
            Section::Setup => add(&mut self.setup, step),
            _ => add(&mut self.steps, step),
        }
    }

    /// Gives the device that the next step creates a name, where the next word is `as`.
    fn take_device_name(&mut self, words: &mut Cursor<'a, '_>) -> Option<()>
        ensures given { OnSome result (spec.TakesDeviceName (ahead words.old) (ahead words.new)
            (given_of self.old) (given_of self.new)) }
        ensures said { OnlyGives self.old self.new }
    {
        if !words.takes("as") {
            return Some(());
        }
        let Some(text) = words.peek() else {
            return words.fails(Wanted::Name);
        };
        self.name(Part::Device, text, self.devices, words)?;
        words.pass();
        Some(())
    }

    /// Attaches a device of a stack, which has this line, to the one below it.
    fn attach(&mut self, head: Head, device: u32, line: &Cursor<'a, '_>) -> Option<()>
        ensures { OnSome result (members_of self.new ≡ with_steps head.section
            (attachment head.seat head.condition device ∷ []) (members_of self.old)) }
    {
        let values = two(u64::from(device), u64::from(device.saturating_sub(1)));
        self.place(head.section, line)?;
        self.add_step(head.section, head.step(ActKind::Attach, values))
    }

    /// Attaches the devices of a stack, from this one on, each to the one below it.
    fn attach_all(&mut self, head: Head, first: u32, line: &Cursor<'a, '_>) -> Option<()>
        ensures { OnSome result (members_of self.new ≡ with_steps head.section
            (attachments (self.old.devices - first) head.seat head.condition first)
            (members_of self.old)) }
    {
        for device in first..self.devices {
            self.attach(head, device, line)?;
        }
        Some(())
    }

    /// Takes the line of a stack: from the bottom up the drivers of its devices, each perhaps with a name, behind the
    /// lock that it and those above it have. It stands for the steps that create the devices, and those that attach
    /// each to the one below it.
    fn take_stack(&mut self, head: Head, words: &mut Cursor<'a, '_>) -> Option<()>
        ensures { OnSome result (IsStack head.section head.seat head.condition (ahead words.old)
            (ahead words.new) (members_of self.old) (members_of self.new)) }
    {
        let begin = *words;
        let above = self.devices.saturating_add(1);
        self.take_stack_devices(head, words)?;
        self.attach_all(head, above, &begin)
    }

    /// The lock that a device of a stack has: that behind `lock`, or that of the device below.
    fn take_lock(&self, below: u64, words: &mut Cursor<'_, '_>) -> Option<u64>
        ensures { IfSome result (TakesLock (given_of self.now).names below (ahead words.old)
            (ahead words.new)) }
    {
        if words.takes("lock") {
            self.number(Part::Lock, words)
        } else {
            Some(below)
        }
    }

    /// Takes the lock and the driver of a stack's device, and its name.
    fn take_stack_device(&mut self, below: u64, words: &mut Cursor<'a, '_>) -> Option<(u64, u64)>
        ensures device { IfSome result (λ device. TakesDevice below (ahead words.old)
            (ahead words.new) device.0 device.1 (given_of self.old) (given_of self.new)) }
        ensures said { OnlyGives self.old self.new }
    {
        let lock = self.take_lock(below, words)?;
        let driver = self.number(Part::Driver, words)?;
        self.take_device_name(words)?;
        Some((driver, lock))
    }

    /// Notes where a device of a stack begins; the first does where the line begins.
    fn place_next(&mut self, section: Section, is_first: bool, words: &Cursor<'a, '_>) -> Option<()>
        ensures { members_of self.new ≡ members_of self.old }
    {
        if is_first {
            Some(())
        } else {
            self.place(section, words)
        }
    }

    /// Takes the next device of a stack, and gives its lock; the first stands where the line begins.
    fn take_next_device(
        &mut self,
        head: Head,
        is_first: bool,
        below: u64,
        words: &mut Cursor<'a, '_>,
    ) -> Option<u64>
        ensures { IfSome result (λ lock. CreatesDevice head.section head.seat head.condition
            (ahead words.old) (ahead words.new) below lock (members_of self.old)
            (members_of self.new)) }
    {
        self.place_next(head.section, is_first, words)?;
        let (driver, lock) = self.take_stack_device(below, words)?;
        let step = head.step(ActKind::CreateDevice, two(driver, lock));
        self.add_step(head.section, step)?;
        Some(lock)
    }

    /// Takes the locks and the drivers of a stack.
    fn take_stack_devices(&mut self, head: Head, words: &mut Cursor<'a, '_>) -> Option<()>
        ensures { OnSome result (CreatesDevices head.section head.seat head.condition
            (ahead words.old) (ahead words.new) (members_of self.old) (members_of self.new)) }
    {
        if words.text() != "lock" {
            return words.fails(Wanted::StackLock);
        }
        let mut lock = 0u64;
        for at in 0..words.left() {
            lock = self.take_next_device(head, at == 0, lock, words)?;
            if words.left() == 0 {
                return Some(());
            }
        }
        None
    }

    /// The seat of a step, where the next words give it; else the first.
    fn take_seat(&self, words: &mut Cursor<'_, '_>) -> Option<u32>
        ensures { IfSome result
            (TakesSeat (given_of self.now).names (ahead words.old) (ahead words.new)) }
    {
        if words.takes("seat") {
            self.short(Part::Seat, words)
        } else {
            Some(0)
        }
    }

    /// What stands before a step of this section on its line, behind its name.
    fn take_head(&self, section: Section, words: &mut Cursor<'_, '_>) -> Option<Head>
        ensures section { IfSome result (λ head. head.section ≡ section) }
        ensures head { IfSome result (λ head. spec.TakesHead (ahead words.old) (ahead words.new)
            head.seat head.condition (given_of self.now)) }
    {
        let seat = self.take_seat(words)?;
        let condition = self.take_condition(words)?;
        Some(Head {
            section,
            seat,
            condition,
        })
    }

    /// Gives the device that a step creates a name, where it is such a step and the next word is `as`.
    fn take_name_for(&mut self, act: ActKind, words: &mut Cursor<'a, '_>) -> Option<()>
        ensures given { OnSome result (spec.TakesNameOf act (ahead words.old) (ahead words.new)
            (given_of self.old) (given_of self.new)) }
        ensures said { OnlyGives self.old self.new }
    {
        match act {
            ActKind::CreateDevice => self.take_device_name(words),
            _ => Some(()),
        }
    }

    /// Takes a step, behind its head.
    fn take_act(&mut self, head: Head, words: &mut Cursor<'a, '_>) -> Option<()>
        ensures { OnSome result (spec.SaysAct head.section head.seat head.condition
            (ahead words.old) (ahead words.new) (members_of self.old) (members_of self.new)) }
    {
        let act = words.taken(ActKind::named(words.text()), Wanted::Act)?;
        let values = self.take_values(act, words)?;
        self.take_name_for(act, words)?;
        self.add_step(head.section, head.step(act, values))?;
        Some(())
    }

    /// Takes a step, or a stack, behind its head.
    fn take_act_or_stack(&mut self, head: Head, words: &mut Cursor<'a, '_>) -> Option<()>
        ensures { OnSome result
            (spec.SaysAct head.section head.seat head.condition (ahead words.old) (ahead words.new)
            (members_of self.old) (members_of self.new)
            ⊎ spec.SaysStack head.section head.seat head.condition (ahead words.old)
            (ahead words.new) (members_of self.old) (members_of self.new)) }
    {
        if words.takes("stack") {
            self.take_stack(head, words)
        } else {
            self.take_act(head, words)
        }
    }

    /// Gives the name, if the line of a step of `steps` begins with one, to it.
    fn take_step_name(&mut self, section: Section, words: &mut Cursor<'a, '_>) -> Option<()>
        ensures given { OnSome result (spec.TakesStepName section
            (spec.place_after self.old.steps.items) (ahead words.old) (ahead words.new)
            (given_of self.old) (given_of self.new)) }
        ensures said { OnlyGives self.old self.new }
    {
        let number = self.steps.len();
        match section {
            Section::Steps => self.take_name(Part::Step, number, words),
            _ => Some(()),
        }
    }

    /// Takes the line of a step of this section.
    pub fn take_step(&mut self, section: Section, words: &mut Cursor<'a, '_>) -> Option<()>
        ensures { OnSome result (spec.SaysStep section (ahead words.old) (ahead words.new)
            (members_of self.old) (members_of self.new)) }
    {
        self.place(section, words)?;
        self.take_step_name(section, words)?;
        let head = self.take_head(section, words)?;
        self.take_act_or_stack(head, words)?;
        Some(())
    }
}
