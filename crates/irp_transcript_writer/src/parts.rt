//! The small forms, of which questions, calls and replies are made.
#![tactic(auto, unfolding(json::specs::Print::escape_byte))]

ghost use Rattle.irp_transcript_writer.specs.Lines as spec;

use crate::form::{Written, put, put_list, put_one, put_text, put_two};
use crate::names::{letters_of_flags, name_of_answer};
use irp_types::{
    Answer, CancelAnswer, CancelId, DeviceId, DispatchId, IrpRef, Known, LockNo, Owner, Party,
    Plan, Replacement, RoutineId, Seen, Setting, Shown, Status,
};
use std::alloc::AllocError;

impl Written for DeviceId {
    ghost json = { spec.device_json };

    fn write(&self, out: &mut Vec<u8>) -> Result<(), AllocError> {
        self.0.write(out)
    }
}

impl Written for CancelId {
    ghost json = { spec.cancel_json };

    fn write(&self, out: &mut Vec<u8>) -> Result<(), AllocError> {
        self.0.write(out)
    }
}

impl Written for LockNo {
    ghost json = { spec.lock_json };

    fn write(&self, out: &mut Vec<u8>) -> Result<(), AllocError> {
        self.0.write(out)
    }
}

impl Written for Status {
    ghost json = { spec.status_json };

    fn write(&self, out: &mut Vec<u8>) -> Result<(), AllocError> {
        self.0.write(out)
    }
}

impl Written for IrpRef {
    ghost json = { spec.irp_json };

    fn write(&self, out: &mut Vec<u8>) -> Result<(), AllocError> {
        put_two(out, "[", &self.slot, ",", &self.use_no, "]")
    }
}

impl Written for Party {
    ghost json = { spec.party_json };

    fn write(&self, out: &mut Vec<u8>) -> Result<(), AllocError> {
        match *self {
            Party::Originator => put_text(out, "\"o\""),
            Party::Device(device) => device.write(out),
        }
    }
}

impl Written for Owner {
    ghost json = { spec.owner_json };

    fn write(&self, out: &mut Vec<u8>) -> Result<(), AllocError> {
        match *self {
            Owner::Originator => put_text(out, "\"o\""),
            Owner::Device(device) => device.write(out),
            Owner::Ended => put_text(out, "\"ended\""),
        }
    }
}

impl Written for RoutineId {
    ghost json = { spec.routine_json };

    fn write(&self, out: &mut Vec<u8>) -> Result<(), AllocError> {
        put_two(out, "[", &self.rule, ",", &self.no, "]")
    }
}

impl Written for Setting {
    ghost json = { spec.setting_json };

    fn write(&self, out: &mut Vec<u8>) -> Result<(), AllocError> {
        put(out, "[", &self.routine.rule)?;
        put(out, ",", &self.routine.no)?;
        put(out, ",", &self.context)?;
        put_text(out, ",")?;
        put_text(out, letters_of_flags(*self))?;
        put_text(out, "]")
    }
}

impl Written for Plan {
    ghost json = { spec.plan_json };

    fn write(&self, out: &mut Vec<u8>) -> Result<(), AllocError> {
        match *self {
            Plan::Finish {
                status,
                information,
            } => put_two(out, "[\"finish\",", &status, ",", &information, "]"),
            Plan::Hold { cancel } => put_one(out, "[\"hold\",", &cancel, "]"),
            Plan::HoldSlot => put_text(out, "[\"hold_slot\"]"),
            Plan::Skip => put_text(out, "[\"skip\"]"),
            Plan::Forward { set } => put_one(out, "[\"forward\",", &set, "]"),
            Plan::ForwardPend { set } => put_one(out, "[\"forward_pend\",", &set, "]"),
        }
    }
}

impl Written for Replacement {
    ghost json = { spec.replacement_json };

    fn write(&self, out: &mut Vec<u8>) -> Result<(), AllocError> {
        put_two(out, "[", &self.status, ",", &self.information, "]")
    }
}

impl Written for Answer {
    ghost json = { spec.answer_json };

    fn write(&self, out: &mut Vec<u8>) -> Result<(), AllocError> {
        put_text(out, "[")?;
        put_text(out, name_of_answer(self.keep))?;
        put_two(out, ",", &self.mark, ",", &self.replacement, "]")
    }
}

impl Written for CancelAnswer {
    ghost json = { spec.cancel_answer_json };

    fn write(&self, out: &mut Vec<u8>) -> Result<(), AllocError> {
        match *self {
            CancelAnswer::Finish { information } => put_one(out, "[\"finish\",", &information, "]"),
            CancelAnswer::Leave => put_text(out, "[\"leave\"]"),
        }
    }
}

impl Written for Shown {
    ghost json = { spec.shown_json };

    fn write(&self, out: &mut Vec<u8>) -> Result<(), AllocError> {
        put(out, "[", &self.device)?;
        put(out, ",", &self.irp.slot)?;
        put(out, ",", &self.irp.use_no)?;
        put(out, ",", &self.major)?;
        put(out, ",", &self.location)?;
        put(out, ",", &self.word)?;
        put(out, ",", &self.status)?;
        put(out, ",", &self.information)?;
        put(out, ",", &self.pending_returned)?;
        put(out, ",", &self.cancel)?;
        put_two(out, ",", &self.context, ",", &self.has_lower, "]")
    }
}

impl Written for Seen {
    ghost json = { spec.seen_json };

    fn write(&self, out: &mut Vec<u8>) -> Result<(), AllocError> {
        put(out, "[", &self.owner)?;
        put(out, ",", &self.current)?;
        put(out, ",", &self.status)?;
        put(out, ",", &self.information)?;
        put(out, ",", &self.cancel)?;
        put(out, ",", &self.cancel_routine)?;
        put_two(out, ",", &self.pending_returned, ",", &self.marked, "]")
    }
}

impl Written for Known {
    ghost json = { spec.known_json };

    fn write(&self, out: &mut Vec<u8>) -> Result<(), AllocError> {
        let Known {
            watch,
            change,
            keeper,
            keep_on_error,
            free,
            cancel,
        } = *self;
        put_list(out, &[watch, change, keeper, keep_on_error, free, cancel])
    }
}

impl Written for (u8, DispatchId) {
    ghost json = { spec.handler_json };

    fn write(&self, out: &mut Vec<u8>) -> Result<(), AllocError> {
        put_two(out, "[", &self.0, ",", &self.1.0, "]")
    }
}
