//! What a heap's table is made for.
//!
//! The plan stands in each seat's view, and seats go to other threads. So it holds no reference: of the script it has what it
//! says, and of a processor, which borrows the script's shapes, what it is in lists of steps.

use gh_base::{Layout, Op};
use gh_script::Script;
use gh_table::Plan;
use std::marker::Model;
use std::snapshot::Snapshot;

/// What stands for an actor in lists of steps, whatever script it borrows. No value of it is made.
pub struct AnyActor;

impl Model for AnyActor {
    ghost use Rattle.gh_lists.specs.declared.handshake.Actor.{Actor};
    ghost use Rattle.gh_actor.specs.Plans.{no_actor};

    ghost Value = { Actor };

    ghost view = { λ p. no_actor };
}

/// A script, and the layout of the words that its heap has.
#[derive(Drop)]
pub struct HeapPlan {
    pub script: Snapshot<Script>,
    pub layout: Layout,
}

impl Model for HeapPlan {
    ghost use Rattle.gh_actor.specs.Plans.{Planned};

    ghost Value = { Planned };

    ghost view = { λ p. record { script = p.script.value; layout = p.layout } };
}

impl Plan<AnyActor, Op> for HeapPlan {
    ghost use Rattle.gh_actor.specs.Plans.{nothing_planned, setting};

    ghost setting = { setting };

    ghost nothing = { nothing_planned };
}
