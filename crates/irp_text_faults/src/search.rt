//! The first part of a value that isn't as it should be. Values are looked through in the order of the tables, an object's
//! keys before what stands under them.

use crate::acts::acts_of;
use crate::fits::fits;
use crate::kinds::{has_kind, kinds};
use crate::nodes::Node;
use crate::part::{ActForm, Body, Key, Kind, Part, Shape};
use crate::parts::{noun_of, shape_for};
use crate::tokens::Kind as TokenKind;
use irp_forms::StepPlace;
use std::alloc::Global;

/// In what a value stands.
#[derive(Clone, Copy, PartialEq, Eq)]
pub enum Text {
    /// A transcript's line.
    Line,
    /// The list `setup` of a script.
    Setup,
    /// Another part of a script.
    Script,
}

/// What is settled for a value.
#[derive(Clone, Copy)]
pub struct Bounds {
    pub text: Text,
    /// Whether it may have what form 1 lacks.
    pub two: bool,
    /// How many seats the header has; in a script 0.
    pub seats: u32,
}

/// What isn't as it should be. Nouns and keys stand for what may be there.
#[derive(Clone, Copy)]
pub enum What<'t> {
    /// It isn't what such a part may be.
    Told,
    /// It is no list of so many items.
    Count,
    /// It is no object with these keys.
    NoObject(&'static str, &'static [Key]),
    /// The first of these keys that it lacks.
    Missing(&'static str, &'static str, &'static [Key]),
    /// This is no key of these.
    Unknown(Node<'t>, &'static str, &'static [Key]),
    /// It is no object that has the word of a step.
    NoStep,
    /// It lacks the word of a step.
    MissingWord,
    /// It is the word of no step, or none of the kinds of its part.
    Other,
    /// It has the name of a kind, and not its form: how that is told of a transcript, and of a script.
    NotAs(&'static str, &'static str),
    /// Form 1 doesn't have it.
    FormOneHasNo(&'static str),
    /// The list `setup` doesn't have it.
    SetupHasNo,
    /// A dispatch may name so many routines, and no more.
    TooManyNamed(u64),
    /// A driver's major isn't above the one before it.
    NotRising,
    /// A driver names none of so many dispatches.
    NoDispatch(u64),
    /// A line is neither an entry nor a word line.
    NoLine,
}

/// A value that isn't as it should be, which part it is, and why.
#[derive(Clone, Copy)]
pub struct Misfit<'t> {
    pub node: Node<'t>,
    pub part: Part,
    pub what: What<'t>,
}

/// What is still to be looked at.
#[derive(Clone, Copy)]
enum Task<'t> {
    /// This item, where there is one, and those behind it: each is such a part.
    Each(Option<Node<'t>>, Part),
    /// The same: they are these parts.
    Items(Option<Node<'t>>, &'static [Part]),
    /// What stands in an object under these keys.
    Under(Node<'t>, &'static [Key]),
}

/// What is still to be looked at, the next one last, and the first misfit that was found. Where memory runs out it
/// remembers that.
#[derive(Drop)]
pub struct Search<'t> {
    bounds: Bounds,
    tasks: Vec<Task<'t>>,
    pub misfit: Option<Misfit<'t>>,
    /// Whether memory ran out.
    pub ran_out: bool,
}

/// Whether a key is one of these.
fn is_key(key: Node, keys: &[Key]) -> bool {
    for (name, _) in keys {
        if key.is_word(*name) {
            return true;
        }
    }
    false
}

/// The first of these keys that an object lacks.
fn missing_key(node: Node, keys: &'static [Key]) -> Option<&'static str> {
    for (name, _) in keys {
        if node.get(*name).is_none() {
            return Some(*name);
        }
    }
    None
}

/// Whether a key is told in place of one that was found before it, where neither is known. Of a line the first in the order
/// of bytes is told, and of one that is there twice the last.
fn is_told(text: Text, before: Option<Node>, key: Node) -> bool {
    match before {
        None => true,
        Some(before) => text == Text::Line
            && key.word().unwrap_or(&[]) <= before.word().unwrap_or(&[]),
    }
}

/// Whether a key may stand beside those of such a part.
fn is_beside(key: Node, part: Part) -> bool {
    matches!(part, Part::ScriptStep) && key.is_word("if")
}

/// The key of an object that is none of these, where there is one.
fn unknown_key<'t>(text: Text, node: Node<'t>, part: Part, keys: &[Key]) -> Option<Node<'t>> {
    let mut found = None;
    let mut next = node.first();
    for _ in 0..node.tokens.len() {
        let Some(key) = next else {
            return found;
        };
        if !is_key(key, keys) && !is_beside(key, part) && is_told(text, found, key) {
            found = Some(key);
        }
        next = key.value().next();
    }
    found
}

/// The step whose word this is, of those that have keys in such a part.
fn act_at(name: Node, part: Part) -> Option<ActForm> {
    for form in acts_of(part) {
        if !form.keys.is_empty() && name.is_word(form.act.word()) {
            return Some(*form);
        }
    }
    None
}

/// Whether a value has the name of a kind.
fn is_of(node: Node, kind: Kind) -> bool {
    match kind.body {
        Body::Text => node.is_word(kind.name),
        Body::Keys(_) => node.get(kind.name).is_some(),
        Body::Items(..) => node.begins_with(kind.name),
    }
}

/// The first kind of a part whose name a value has.
fn kind_at(node: Node, part: Part) -> Option<Kind> {
    for kind in kinds() {
        if has_kind(part, *kind) && is_of(node, *kind) {
            return Some(*kind);
        }
    }
    None
}

impl<'t> Search<'t> {
    /// Nothing is to be looked at. It takes no memory.
    pub fn new(alloc: Global, bounds: Bounds) -> Search<'t> {
        Search {
            bounds,
            tasks: Vec::new(alloc),
            misfit: None,
            ran_out: false,
        }
    }

    /// Whether a misfit was found, or memory ran out.
    pub fn is_over(&self) -> bool {
        self.ran_out || self.misfit.is_some()
    }

    /// A value isn't as such a part should be; unless one was found before.
    pub fn fails(&mut self, node: Node<'t>, part: Part, what: What<'t>) {
        if self.misfit.is_none() {
            self.misfit = Some(Misfit { node, part, what });
        }
    }

    /// Has this done next.
    fn ask(&mut self, task: Task<'t>) {
        if self.tasks.push(task).is_err() {
            self.ran_out = true;
        }
    }

    /// Looks at a list of exactly these parts.
    fn look_at_items(&mut self, node: Node<'t>, part: Part, parts: &'static [Part]) {
        if node.count() == Some(parts.len()) {
            self.ask(Task::Items(node.first(), parts));
        } else {
            self.fails(node, part, What::Count);
        }
    }

    /// Looks at a list of such parts, at most so many.
    fn look_at_each(&mut self, node: Node<'t>, part: Part, of: Part, most: usize) {
        match node.count() {
            Some(count) if count <= most => self.ask(Task::Each(node.first(), of)),
            _ => self.fails(node, part, What::Count),
        }
    }

    /// An object has keys of which one isn't known or is missing. A line's are told in the other order than a script's.
    fn look_at_names(
        &mut self,
        node: Node<'t>,
        part: Part,
        noun: &'static str,
        keys: &'static [Key],
    ) {
        let text = self.bounds.text;
        let missing = missing_key(node, keys);
        match (unknown_key(text, node, part, keys), missing) {
            (Some(_), Some(name)) if text == Text::Line => {
                self.fails(node, part, What::Missing(name, noun, keys))
            }
            (Some(key), _) => self.fails(node, part, What::Unknown(key, noun, keys)),
            (None, Some(name)) => self.fails(node, part, What::Missing(name, noun, keys)),
            (None, None) => {}
        }
    }

    /// Looks at an object with exactly these keys.
    fn look_at_keys(
        &mut self,
        node: Node<'t>,
        part: Part,
        noun: &'static str,
        keys: &'static [Key],
    ) {
        if node.kind() != TokenKind::Object {
            self.fails(node, part, What::NoObject(noun, keys));
            return;
        }
        self.look_at_names(node, part, noun, keys);
        self.ask(Task::Under(node, keys));
    }

    /// Looks at an object of this step, whose word stands here.
    fn look_at_form(&mut self, node: Node<'t>, word: Node<'t>, part: Part, form: ActForm) {
        let (name, place) = (form.act.word(), form.act.place());
        if place == StepPlace::FormTwo && !self.bounds.two {
            self.fails(word, part, What::FormOneHasNo(name));
        } else if place != StepPlace::Anywhere && self.bounds.text == Text::Setup {
            self.fails(word, part, What::SetupHasNo);
        } else {
            self.look_at_keys(node, part, name, form.keys);
        }
    }

    /// Looks at an object of the step whose word it has under `do`.
    fn look_at_act(&mut self, node: Node<'t>, part: Part) {
        if node.kind() != TokenKind::Object {
            self.fails(node, part, What::NoStep);
            return;
        }
        match node.get("do") {
            None => self.fails(node, part, What::MissingWord),
            Some(word) => match act_at(word, part) {
                Some(form) => self.look_at_form(node, word, part, form),
                None => self.fails(word, part, What::Other),
            },
        }
    }

    /// Looks at a value of this kind.
    fn look_at_kind(&mut self, node: Node<'t>, part: Part, noun: &'static str, kind: Kind) {
        if kind.two && !self.bounds.two {
            let named = node.get(kind.name).unwrap_or(node);
            self.fails(named, part, What::FormOneHasNo(kind.name));
            return;
        }
        match kind.body {
            Body::Text => {}
            Body::Keys(keys) if self.bounds.text == Text::Line => {
                self.look_at_keys(node, part, noun, keys)
            }
            Body::Keys(keys) if node.has_one_key() => self.ask(Task::Under(node, keys)),
            Body::Keys(_) => self.fails(node, part, What::Other),
            Body::Items(parts, line, script) => {
                if node.count() == parts.len().checked_add(1) {
                    self.ask(Task::Items(node.nth(1), parts));
                } else {
                    self.fails(node, part, What::NotAs(line, script));
                }
            }
        }
    }

    /// Looks at a part, and has its parts looked at in turn.
    fn look(&mut self, node: Node<'t>, part: Part) {
        match shape_for(part, node.is_null()) {
            Shape::Items(parts) => self.look_at_items(node, part, parts),
            Shape::Each(of, most) => self.look_at_each(node, part, of, most),
            Shape::Keys(keys) => self.look_at_keys(node, part, noun_of(part), keys),
            Shape::Act => self.look_at_act(node, part),
            Shape::Kinds(noun) => match kind_at(node, part) {
                Some(kind) => self.look_at_kind(node, part, noun, kind),
                None => self.fails(node, part, What::Other),
            },
            alone if fits(node, alone, self.bounds) => {}
            _ => self.fails(node, part, What::Told),
        }
    }

    /// Looks at what is next, and has the rest done behind it.
    fn go_on(&mut self, task: Task<'t>) {
        match task {
            Task::Each(Some(item), part) => {
                self.ask(Task::Each(item.next(), part));
                self.look(item, part);
            }
            Task::Items(Some(item), parts) => {
                if let Some((part, others)) = parts.split_first() {
                    self.ask(Task::Items(item.next(), others));
                    self.look(item, *part);
                }
            }
            Task::Each(None, _) | Task::Items(None, _) => {}
            Task::Under(node, keys) => {
                if let Some(((name, part), others)) = keys.split_first() {
                    self.ask(Task::Under(node, others));
                    if let Some(value) = node.get(*name) {
                        self.look(value, *part);
                    }
                }
            }
        }
    }

    /// Looks at a part and all its parts, up to the first misfit. There are no more of them than twice the tokens.
    pub fn look_through(&mut self, node: Node<'t>, part: Part) {
        self.look(node, part);
        for _ in 0..node.tokens.len().saturating_mul(2) {
            match self.tasks.pop() {
                Some(task) if !self.is_over() => self.go_on(task),
                _ => return,
            }
        }
    }
}
