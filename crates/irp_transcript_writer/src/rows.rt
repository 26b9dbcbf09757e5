//! Objects as rows: their members in order, each with what stands under its key. Source: this project's own format
//! (docs/FORMATS.md).

ghost use Rattle.std.specs.Prelude.{◌≡◌, ◌++◌, OnOk};
ghost use Rattle.irp_transcript_writer.specs.Rows.{part_json, row_text};

use crate::form::{Written, put, put_text};
use irp_transcript::WordReply;
use irp_types::{CancelId, IrpRef, LockNo, Party, Setting};
use std::alloc::AllocError;

/// What stands under a key of a call or of a word line.
#[derive(Clone, Copy)]
pub enum Part {
    Number(u64),
    Flag(bool),
    Party(Party),
    Irp(IrpRef),
    Lock(Option<LockNo>),
    Cancel(Option<CancelId>),
    Setting(Setting),
    Reply(WordReply),
}

impl Written for Part {
    ghost json = { part_json };

    fn write(&self, out: &mut Vec<u8>) -> Result<(), AllocError> {
        match self {
            Part::Number(number) => number.write(out),
            Part::Flag(flag) => flag.write(out),
            Part::Party(party) => party.write(out),
            Part::Irp(irp) => irp.write(out),
            Part::Lock(lock) => lock.write(out),
            Part::Cancel(cancel) => cancel.write(out),
            Part::Setting(setting) => setting.write(out),
            Part::Reply(reply) => reply.write(out),
        }
    }
}

/// Writes a row: what stands under each key, behind the text before it, and a brace at the end. The one error is want
/// of memory.
pub fn put_row(out: &mut Vec<u8>, row: &[(&str, Part)]) -> Result<(), AllocError>
    ensures { OnOk result (out.new.items ≡ out.old.items ++ row_text row.now) }
{
    for member in row {
        put(out, member.0, &member.1)?;
    }
    put_text(out, "}")
}
