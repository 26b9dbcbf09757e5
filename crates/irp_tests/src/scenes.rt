//! Scripts that workers run, as data.

use crate::example::LOCK;
use irp_script::{Stop, StopReason};
use irp_script_reader::{Condition, ExpectedAnswer, Named, Step, StepAct};
use irp_types::{Call, DriverId, LockAct};

/// How the gate lets steps pass.
#[derive(Clone, Copy)]
pub enum Passing {
    /// As they come.
    Free,
    /// Each waits until the other seat's step of the same place among its own has entered.
    InPairs,
    /// As they come, which has to be in turn, so many.
    InTurn(u64),
}

/// A script, and what has to come of it.
pub struct Scene {
    pub seats: u32,
    pub slots: u32,
    /// How many workers run it. With none its seats are opened alone.
    pub workers: u32,
    pub setup: &'static [Step],
    pub steps: &'static [Step],
    pub passing: Passing,
    /// How many entries the seats keep.
    pub entries: usize,
    /// The seats and steps of the word lines, each of an acquisition that was granted.
    pub lines: &'static [(u32, u32)],
    pub stop: Option<Stop>,
}

/// A step of a seat.
macro_rules! by {
    ($seat:literal, $act:expr) => {
        Step { seat: $seat, act: $act, condition: None }
    };
}

/// A seat's acquisition of the lock with a tag.
macro_rules! acquire {
    ($seat:literal, $tag:literal) => {
        by!($seat, StepAct::OnLock(LockAct::Acquire { lock: LOCK, tag: $tag }))
    };
}

/// A seat looks at the first packet.
macro_rules! look {
    ($seat:literal) => {
        by!($seat, StepAct::Call(Call::Look { irp: Named::Label(0) }))
    };
}

/// A worker stops in front of the step of a seat that isn't there.
macro_rules! no_seat {
    ($seat:literal) => { Some(Stop { seat: $seat, reason: StopReason::NoSeat }) };
}

/// A device is created.
macro_rules! create {
    () => { by!(0, StepAct::Call(Call::CreateDevice { driver: DriverId(0), lock: LOCK })) };
}

const ALLOCATE: StepAct = StepAct::Allocate { size: 1, label: 0 };

/// A step of the first seat and one of the second.
const ONE: Step = by!(0, ALLOCATE);

const TWO: Step = by!(1, ALLOCATE);

/// The third step was refused.
const REFUSED: Option<Condition> = Some(Condition {
    step: 2,
    wanted: true,
    answer: ExpectedAnswer::AnyRefusal,
});

/// A scene: its seats, slots and workers; how the gate lets steps pass; the setup and the steps; the entries, the word
/// lines and the stop that come of it.
macro_rules! scene {
    ($seats:literal, $slots:literal, $workers:literal, $passing:expr;
     $setup:expr => $steps:expr;
     $entries:literal, $lines:expr, $stop:expr) => {
        Scene {
            seats: $seats,
            slots: $slots,
            workers: $workers,
            passing: $passing,
            setup: &$setup,
            steps: &$steps,
            entries: $entries,
            lines: &$lines,
            stop: $stop,
        }
    };
}

/// Nine seats, with a remove seat and a slot each.
static PAIRS: Scene = scene! { 9, 9, 0, Passing::Free; [] => []; 0, [], None };

/// Two workers make ten calls each, of which two and two are under way at one time.
static TWO_CALLS: Scene = scene! {
    2, 0, 2, Passing::InPairs;
    [create!()] => [
        ONE, ONE, ONE, ONE, ONE, ONE, ONE, ONE, ONE, ONE, TWO, TWO, TWO, TWO, TWO, TWO, TWO, TWO, TWO, TWO,
    ];
    21, [], None
};

/// Where a step's seat isn't there, its worker stops, and the other worker runs all steps of its own.
static MISSING_SEAT: Scene = scene! {
    2, 0, 2, Passing::Free;
    [] => [acquire!(0, 1), look!(2), acquire!(0, 2), acquire!(1, 3)];
    0, [(0, 0), (1, 3)], no_seat!(2)
};

/// Where a step of the setup stops, neither the rest of the setup nor any other step is run.
static STOP_IN_SETUP: Scene = scene! {
    1, 0, 1, Passing::InTurn(0);
    [create!(), look!(1), create!()] => [create!()];
    1, [], no_seat!(1)
};

/// The gate is called before and after each step that is made: not for one whose condition fails.
static GATE_TURNS: Scene = scene! {
    3, 0, 1, Passing::InTurn(3);
    [create!()] => [by!(2, ALLOCATE), acquire!(0, 1), look!(1), Step { condition: REFUSED, ..look!(1) }];
    3, [(0, 1)], None
};

/// The scenes by their names.
#[derive(Clone, Copy)]
pub enum SceneName {
    Pairs,
    TwoCalls,
    MissingSeat,
    StopInSetup,
    GateTurns,
}

/// The scene of this name.
pub fn scene_of(name: SceneName) -> &'static Scene {
    match name {
        SceneName::Pairs => &PAIRS,
        SceneName::TwoCalls => &TWO_CALLS,
        SceneName::MissingSeat => &MISSING_SEAT,
        SceneName::StopInSetup => &STOP_IN_SETUP,
        SceneName::GateTurns => &GATE_TURNS,
    }
}
