//! The tables of names as JSON, for programs that write other lists or compare them. Source: this project's own format.

ghost use Rattle.irp_words.specs.Telling.{PrintsWhole};

use crate::ending::Ending;
use crate::telling::send_text;
use irp_forms::{ActKind, HasName};
use irp_names::{
    PlanKind, Sink, major_name, minor_name, mistake_name, refusal_meaning, rule_names, status_names,
};
use irp_streams::Out;
use irp_types::Refusal;
use irp_types::limits::LAST_MAJOR;
use std::alloc::{AllocError, Global};

/// The steps for whose calls a refusal may have a name in Windows.
static REFUSED: [ActKind; 5] = [
    ActKind::Delete,
    ActKind::Reuse,
    ActKind::CallDriver,
    ActKind::Complete,
    ActKind::FinishTaken,
];

/// A text of JSON that is made.
#[derive(Drop)]
struct Json {
    text: Sink,
    /// What stands before the next row of a table.
    comma: &'static str,
}

impl Json {
    /// Puts a text.
    fn put(&mut self, text: &str) {
        self.text.put(text);
    }

    /// Puts a name in quotation marks. No name here has a character that JSON writes otherwise.
    fn name(&mut self, name: &str) {
        self.text.quoted(name);
    }

    /// Puts a key and the name under it.
    fn member(&mut self, before: &str, key: &str, name: &str) {
        self.put(before);
        self.name(key);
        self.put(":");
        self.name(name);
    }

    /// Puts a number, in decimal.
    fn number(&mut self, before: &str, number: u32) {
        self.put(before);
        self.text.number(u64::from(number));
    }

    /// Puts numbers and a name, as a row.
    fn row(&mut self, numbers: &[u32], name: &str) {
        self.next();
        let mut before = "[";
        for number in numbers {
            self.number(before, *number);
            before = ",";
        }
        self.put(",");
        self.name(name);
        self.put("]");
    }

    /// Ends a table, if one was begun, and begins the next.
    fn begin(&mut self, table: &str) {
        self.put(table);
        self.comma = "\n";
    }

    /// Puts what stands before the next row.
    fn next(&mut self) {
        self.put(self.comma);
        self.comma = ",\n";
    }
}

/// A step: its word, its names in Windows and in docs/RULES.md, and its keys.
fn put_act(json: &mut Json, act: ActKind) {
    json.next();
    json.member("{", "word", act.word());
    json.member(",", "windows", act.windows_name());
    json.member(",", "rules", act.rules_name());
    json.put(",\"keys\":");
    let mut before = "[";
    for key in act.keys() {
        json.put(before);
        json.name(key.0);
        before = ",";
    }
    json.put("]}");
}

/// All steps.
fn put_acts(json: &mut Json) {
    for place in 0..=usize::MAX {
        let Some(act) = ActKind::at(place) else {
            return;
        };
        put_act(json, act);
    }
}

/// Names, a row each.
fn put_names(json: &mut Json, names: &[&'static str]) {
    for name in names {
        json.next();
        json.name(name);
    }
}

/// The kinds of plans.
fn put_plans(json: &mut Json) {
    for place in 0..=usize::MAX {
        let Some(kind) = PlanKind::at(place) else {
            return;
        };
        json.next();
        json.name(kind.word());
    }
}

/// A refusal: its number, its name, when it comes, and its names in Windows by the words of calls.
fn put_refusal(json: &mut Json, refusal: Refusal) {
    json.next();
    json.number("{\"number\":", refusal.number());
    json.member(",", "name", refusal.name());
    json.member(",", "meaning", refusal_meaning(refusal));
    json.put(",\"windows\":{");
    let mut before = "";
    for act in &REFUSED {
        if let Some(name) = mistake_name(*act, refusal) {
            json.member(before, act.word(), name);
            before = ",";
        }
    }
    json.put("}}");
}

/// All refusals.
fn put_refusals(json: &mut Json) {
    for refusal in Refusal::all() {
        put_refusal(json, *refusal);
    }
}

/// The statuses that have a name, each behind its number.
fn put_statuses(json: &mut Json) {
    for row in status_names() {
        json.row(&[row.0], row.1);
    }
}

/// The major function codes, each behind its number.
fn put_majors(json: &mut Json) {
    for major in 0..=LAST_MAJOR {
        if let Some(name) = major_name(major) {
            json.row(&[u32::from(major)], name);
        }
    }
}

/// The minor function codes of a major function code, each behind both numbers.
fn put_minors_of(json: &mut Json, major: u8) {
    for minor in 0..=u8::MAX {
        if let Some(name) = minor_name(major, u64::from(minor)) {
            json.row(&[u32::from(major), u32::from(minor)], name);
        }
    }
}

/// The minor function codes.
fn put_minors(json: &mut Json) {
    for major in 0..=LAST_MAJOR {
        put_minors_of(json, major);
    }
}

/// The text of all tables: an object with a list under each name.
fn text_of_tables(alloc: Global) -> Result<String, AllocError> {
    let mut json = Json {
        text: Sink::new(alloc),
        comma: "",
    };
    json.begin("{\"acts\":[");
    put_acts(&mut json);
    json.begin("],\n\"rules\":[");
    put_names(&mut json, rule_names());
    json.begin("],\n\"plans\":[");
    put_plans(&mut json);
    json.begin("],\n\"refusals\":[");
    put_refusals(&mut json);
    json.begin("],\n\"statuses\":[");
    put_statuses(&mut json);
    json.begin("],\n\"majors\":[");
    put_majors(&mut json);
    json.begin("],\n\"minors\":[");
    put_minors(&mut json);
    json.put("]}\n");
    json.text.finish()
}

/// Prints the tables.
pub fn tell_tables<O: Out>(alloc: Global, output: &mut O) -> Ending
    ensures { PrintsWhole result (O.gone output.old) (O.gone output.new) }
{
    match text_of_tables(alloc) {
        Ok(text) => send_text(output, text.as_bytes(), Ending::Done),
        Err(_) => Ending::NoMemory,
    }
}
