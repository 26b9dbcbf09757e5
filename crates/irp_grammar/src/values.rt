//! What stands under the keys of steps and behind the names of plans, each by its words.

ghost use Rattle.std.specs.Prelude.{◌≡◌, ◌≤◌, IfSome, OnSome, drop, length};
ghost use Rattle.irp_forms.specs.Steps.{keys_of};
ghost use Rattle.irp_grammar.specs.Lines.{ahead, next_of};
ghost use Rattle.irp_grammar.specs.Reading.{OnlyGives, given_of};
ghost use Rattle.irp_grammar.specs.Values as spec;

use crate::cursor::Cursor;
use crate::names::{is_label, number_up_to};
use crate::numbers::number_in;
use crate::said::Said;
use crate::step_line::{NONE, Value, Values};
use crate::wanted::Wanted;
use irp_forms::{ActKind, Flags, Part, flags_named, named};
use irp_script_reader::Named;
use irp_types::{IrpRef, RoutineId, Rule, Setting};

/// The packet that a word names by its slot, a point and its use number.
fn use_in(text: &str) -> Option<IrpRef>
    ensures { IfSome result (spec.IsUse text.now) }
{
    let (slot, use_no) = text.split_once('.')?;
    Some(IrpRef {
        slot: number_up_to(Part::Slot.most(), slot)? as usize,
        use_no: number_in(use_no)?,
    })
}

/// The packet that a word names so, where such a part may be one.
fn use_for(part: Part, text: &str) -> Option<IrpRef>
    ensures { IfSome result (spec.IsUse text.now) }
{
    if part == Part::Packet {
        use_in(text)
    } else {
        None
    }
}

/// What a word is that such a part has beside numbers and names; what may be left out is null at the line's end.
#[tactic(auto, unfolding(crate::specs::Values::plain))]
fn plain(part: Part, text: &str) -> Option<Value>
    ensures { result ≡ spec.plain part text.now }
{
    match (part, text) {
        (Part::Party, "o") | (Part::Party, "originator") => Some(Value::Originator),
        (Part::CancelOrNull, "none") => Some(Value::Null),
        (Part::CancelOrEnd, "") | (Part::SettingOrEnd, "") => Some(Value::Null),
        _ => None,
    }
}

/// The flags that a word is.
#[tactic(auto, unfolding(crate::specs::Values::flags_in))]
fn flags_in(text: &str) -> Option<Flags>
    ensures { result ≡ spec.flags_in text.now }
{
    match text {
        "" => None,
        "-" => flags_named(""),
        letters => flags_named(letters),
    }
}

/// The place of the key of a step with this name, which has no value yet, and what stands under it.
fn key_at(act: ActKind, values: &Values, text: &str) -> Option<(usize, Part)>
    ensures { IfSome result (λ found.
        spec.IsKeyAt (keys_of act) values.now text.now found.0 found.1) }
{
    let keys = act.keys();
    for place in 0..keys.len() {
        let key = keys[place];
        if key.0 == text && values[place].is_absent() {
            return Some((place, key.1));
        }
    }
    None
}

impl<'a> Said<'a> {
    /// The completion routine that the next words are.
    fn take_routine(&self, words: &mut Cursor<'_, '_>) -> Option<RoutineId>
        ensures { IfSome result
            (spec.TakesRoutine (given_of self.now).names (ahead words.old) (ahead words.new)) }
    {
        if let Some(routine) = self.names.routine(words.text()) {
            words.pass();
            return Some(routine);
        }
        let rule = words.taken(named::<Rule>(words.text()), Wanted::Of(Part::Routine))?;
        let no = self.short(Part::Tag, words)?;
        Some(RoutineId { rule, no })
    }

    /// The setting that the next words are.
    fn take_setting(&self, words: &mut Cursor<'_, '_>) -> Option<Setting>
        ensures { IfSome result
            (spec.TakesSetting (given_of self.now).names (ahead words.old) (ahead words.new)) }
    {
        let routine = self.take_routine(words)?;
        let context = self.number(Part::Information, words)?;
        let flags = words.taken(flags_in(words.text()), Wanted::Flags)?;
        Some(Setting {
            routine,
            context,
            on_success: flags.on_success,
            on_error: flags.on_error,
            on_cancel: flags.on_cancel,
        })
    }

    /// The packet, or the label, that the next word is.
    fn take_packet(&mut self, part: Part, words: &mut Cursor<'a, '_>) -> Option<Named>
        ensures packet { IfSome result (λ packet. spec.IsPacket (next_of (ahead words.old)) packet
            (given_of self.old) (given_of self.new)) }
        ensures words { OnSome result (ahead words.new ≡ drop 1 (ahead words.old)) }
        ensures said { OnlyGives self.old self.new }
    {
        let text = words.text();
        if is_label(text) {
            words.pass();
            return Some(Named::Label(self.names.label(text).ok()?));
        }
        let irp = words.taken(use_for(part, text), Wanted::Of(part))?;
        Some(Named::Irp(irp))
    }

    /// The value of such a part that the next words are, where they are a number, a packet or a setting.
    fn take_other(&mut self, part: Part, words: &mut Cursor<'a, '_>) -> Option<Value>
        ensures value { IfSome result (λ value. spec.SaysOther part (ahead words.old) (ahead words.new)
            value (given_of self.old) (given_of self.new)) }
        ensures said { OnlyGives self.old self.new }
    {
        Some(match part {
            Part::Label | Part::Packet => Value::Packet(self.take_packet(part, words)?),
            Part::Setting | Part::SettingOrEnd => Value::Set(self.take_setting(words)?),
            _ => Value::Number(self.number(part, words)?),
        })
    }

    /// The value of such a part that the next words are.
    fn take_value(&mut self, part: Part, words: &mut Cursor<'a, '_>) -> Option<Value>
        ensures value { IfSome result (λ value. spec.SaysValue part (ahead words.old) (ahead words.new)
            value (given_of self.old) (given_of self.new)) }
        ensures said { OnlyGives self.old self.new }
    {
        match plain(part, words.text()) {
            Some(value) => {
                words.pass();
                Some(value)
            }
            None => self.take_other(part, words),
        }
    }

    /// The values of these parts that the next words are.
    pub fn take_parts(&mut self, parts: &[Part], words: &mut Cursor<'a, '_>) -> Option<Values>
        requires { length parts.now ≤ 6 }
        ensures values { IfSome result (λ values. spec.ArePartValues parts.now (ahead words.old)
            (ahead words.new) values (given_of self.old) (given_of self.new)) }
        ensures said { OnlyGives self.old self.new }
    {
        let mut values = NONE;
        for place in 0..parts.len() {
            values[place] = self.take_value(parts[place], words)?;
        }
        Some(values)
    }

    /// Takes a key of a step, which wasn't taken yet, with its value.
    fn take_key(
        &mut self,
        act: ActKind,
        values: &mut Values,
        words: &mut Cursor<'a, '_>,
    ) -> Option<()>
        ensures key { OnSome result (spec.TakesKey (keys_of act) (ahead words.old) (ahead words.new)
            values.old values.new (given_of self.old) (given_of self.new)) }
        ensures said { OnlyGives self.old self.new }
    {
        let (place, part) = words.taken(key_at(act, values, words.text()), Wanted::Key(act))?;
        values[place] = self.take_value(part, words)?;
        Some(())
    }

    /// The values of a step's keys, which are the next words with them, in any order.
    pub fn take_values(&mut self, act: ActKind, words: &mut Cursor<'a, '_>) -> Option<Values>
        ensures values { IfSome result (λ values. spec.AreKeyValues (keys_of act) (ahead words.old)
            (ahead words.new) values (given_of self.old) (given_of self.new)) }
        ensures said { OnlyGives self.old self.new }
    {
        let mut values = NONE;
        for _taken in 0..act.keys().len() {
            self.take_key(act, &mut values, words)?;
        }
        Some(values)
    }
}
