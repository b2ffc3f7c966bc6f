//! A heap, whose words threads share.

ghost use Rattle.std.specs.Prelude.{◌≡◌};
ghost use Rattle.gh_table.specs.Rule.{IsLaidOut};
ghost use Rattle.gh_actor.specs.Plans.{setting};

use atomic_table::Table;
use gh_actor::{AnyActor, HeapPlan};
use gh_base::{Layout, Op};
use gh_table::{OneLegalList, View};
use std::alloc::Global;

/// A heap that runs the script, whose words threads share.
#[derive(Drop)]
pub struct Heap {
    pub table: Table<(), View<HeapPlan, Op>, HeapPlan, OneLegalList<AnyActor, Op>, Global>,
    pub layout: Layout,
    pub ghost laid: { IsLaidOut setting table.shared.key table.shared.table_id.words layout },
    pub ghost slotless: { table.shared.table_id.slots ≡ 0 },
}
