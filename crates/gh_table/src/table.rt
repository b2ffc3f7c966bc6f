//! The one table of words, and what is done with its seats: a step, a split, a join, the opening and the close.

ghost use Rattle.std.specs.Prelude.{◌≡◌, ℕ, ◌<◌, ◌+◌, ◌-◌, ◌||◌, true, false, [], ◌++◌, length, IfOk};
ghost use Rattle.std.specs.Slots.{slots_items, slots_len, IsFull};
ghost use Rattle.gh_base.specs.declared.cell.Ask.TheVariants as ask;
ghost use Rattle.gh_base.specs.Cells.{InRange, ShowsCells};
ghost use Rattle.gh_base.specs.Lists.{by, started};
ghost use Rattle.gh_table.specs.Rule.{actor_in, BeginsIn, IsAfterOneList, IsLaidOut, IsTold, MayAsk, Tells};
ghost use Rattle.gh_table.specs.Runs.{SawLegalList};
ghost use Rattle.gh_table.specs.Views.{all_carried, Carries, has, leaving, Once, one_carried, rest_carried, staying};

use crate::acts::Acts;
use crate::plan::{Plan, View};
use crate::rule::{
    AddsEntry, AddsStore, FirstActorLeaves, NextStep, OneLegalList, SeatsJoined, TellsActors,
};
use atomic_table::{Closed, Seat, Shared, Table};
use gh_base::laws::{
    a_state_is_of_its_own_entries, cells_have_words_of_their_own, steps_are_shown,
};
use gh_base::{Cell, Layout, Machine, Req};
use std::alloc::{AllocError, Global};
use std::marker::Brand;

/// The words of a table, each of which changes in single atomic steps.
pub type SharedWords<K, A, O> = Shared<(), View<K, O>, K, OneLegalList<A, O>>;

/// What an actor steps with. It has no bytes and may go to another thread.
pub type ActorSeat<K, O> = Seat<(), View<K, O>>;

/// The step that the machine asks for, which adds the entry that N names. It answers the word that the machine is to be
/// told: the one found, and behind a store, which finds nothing, any.
fn make_step<A, O, K: Plan<A, O>, M: Acts<K, A, O>, N: NextStep<O>>(
    words: &SharedWords<K, A, O>,
    layout: &Layout,
    seat: &mut ActorSeat<K, O>,
    actor: u32,
    begun: &Option<O>,
    machine: &M,
) -> u64
    requires step { (N.actor ≡ actor) × (N.begun ≡ begun.now) × (N.ask ≡ M.asks machine.now) }
    requires words { IsLaidOut K.setting words.now.key words.now.table_id.words layout.now }
    requires table { (seat.old.table_id ≡ words.now.table_id) × (seat.old.me.0.plan ≡ words.now.key) }
    requires busy { M.busy machine.now ≡ true }
    requires laid { M.layout machine.now ≡ layout.now }
    requires may { MayAsk K.setting seat.old.me.0 actor begun.now (M.asks machine.now) }
    ensures same { seat.new.table_id ≡ seat.old.table_id }
    ensures tells { (found : ℕ) × Tells K.setting actor begun.now (M.asks machine.now) found seat.old.me seat.new.me × IsTold (M.asks machine.now) result found }
{
    a_state_is_of_its_own_entries::<A, O>();
    cells_have_words_of_their_own(layout);
    steps_are_shown(layout);
    match machine.next() {
        Req::Load(i) => words.load::<AddsEntry<A, N>>(seat, i as usize),
        Req::Store(i, x) => {
            words.store::<AddsStore<A, N>>(seat, i as usize, x);
            0
        }
        Req::Or(i, x) => words.fetch_or::<AddsEntry<A, N>>(seat, i as usize, x),
        Req::And(i, x) => words.fetch_and::<AddsEntry<A, N>>(seat, i as usize, x),
        Req::Add(i, x) => words.fetch_add::<AddsEntry<A, N>>(seat, i as usize, x),
        Req::Swap(i, x, y) => words.compare_exchange::<AddsEntry<A, N>>(seat, i as usize, x, y),
    }
}

/// The same of a step that loads this cell, whose machine stays behind.
#[inline(always)]
fn load_word<A, O, K: Plan<A, O>, N: NextStep<O>>(
    words: &SharedWords<K, A, O>,
    layout: &Layout,
    seat: &mut ActorSeat<K, O>,
    actor: u32,
    begun: &Option<O>,
    cell: Cell,
) -> u64
    requires step { (N.actor ≡ actor) × (N.begun ≡ begun.now) × (N.ask ≡ ask.Load cell) }
    requires words { IsLaidOut K.setting words.now.key words.now.table_id.words layout.now }
    requires table { (seat.old.table_id ≡ words.now.table_id) × (seat.old.me.0.plan ≡ words.now.key) }
    requires within { InRange layout.now cell }
    requires may { MayAsk K.setting seat.old.me.0 actor begun.now (ask.Load cell) }
    ensures same { seat.new.table_id ≡ seat.old.table_id }
    ensures tells { Tells K.setting actor begun.now (ask.Load cell) result seat.old.me seat.new.me }
{
    let _ = actor;
    let _ = begun;
    a_state_is_of_its_own_entries::<A, O>();
    cells_have_words_of_their_own(layout);
    steps_are_shown(layout);
    words.load::<AddsEntry<A, N>>(seat, layout.word(cell) as usize)
}

/// One step of the actor whose machine this is, by a seat that carries it. It begins the operation `begun` with this step,
/// if any: `machine` has begun it already.
///
/// `layout` is the plan's. The step is one atomic operation on one word; it answers what the machine gives, `None` exactly
/// where that asks for a further step. It waits for nobody.
pub fn perform<A, O, K: Plan<A, O>, M: Acts<K, A, O>>(
    words: &SharedWords<K, A, O>,
    layout: &Layout,
    seat: &mut ActorSeat<K, O>,
    actor: u32,
    begun: &Option<O>,
    machine: &mut M,
) -> Option<M::Out>
    requires words { IsLaidOut K.setting words.now.key words.now.table_id.words layout.now }
    requires table { (seat.old.table_id ≡ words.now.table_id) × (seat.old.me.0.plan ≡ words.now.key) }
    requires carries { Carries seat.old.me.0 actor }
    requires belongs { M.belongs words.now.key machine.old }
    requires busy { M.busy machine.old ≡ true }
    requires state { M.acts_as machine.old ≡ started (K.setting seat.old.me.0.plan).kind begun.now (actor_in K.setting seat.old.me.0 actor) }
    requires begins { BeginsIn K.setting seat.old.me.0 actor begun.now }
    ensures same { seat.new.table_id ≡ seat.old.table_id }
    ensures step { (found : ℕ) × Tells K.setting actor begun.now (M.asks machine.old) found seat.old.me seat.new.me × (machine.new ≡ M.goes machine.old found) × (result ≡ M.gives machine.old found) }
{
    let told = make_step::<A, O, K, M, Brand>(words, layout, seat, actor, begun, machine);
    machine.take(told)
}

/// One step of an actor that loads this cell, by a seat that carries it, where its machine stays behind: who calls knows
/// what the machine would ask for. It begins the operation `begun` with this step, if any. It answers the word that was found.
///
/// It is a load of the table's word, and nothing else of it is left at run time.
#[inline(always)]
pub fn load_cell<A, O, K: Plan<A, O>>(
    words: &SharedWords<K, A, O>,
    layout: &Layout,
    seat: &mut ActorSeat<K, O>,
    actor: u32,
    begun: &Option<O>,
    cell: Cell,
) -> u64
    requires words { IsLaidOut K.setting words.now.key words.now.table_id.words layout.now }
    requires table { (seat.old.table_id ≡ words.now.table_id) × (seat.old.me.0.plan ≡ words.now.key) }
    requires within { InRange layout.now cell }
    requires may { MayAsk K.setting seat.old.me.0 actor begun.now (ask.Load cell) }
    ensures same { seat.new.table_id ≡ seat.old.table_id }
    ensures tells { Tells K.setting actor begun.now (ask.Load cell) result seat.old.me seat.new.me }
    ensures saw { SawLegalList K.setting actor seat.old.me seat.new.me }
{
    load_word::<A, O, K, Brand>(words, layout, seat, actor, begun, cell)
}

/// The first actor that the seat carries gets a seat of its own, with its entries; the others stay. Where the seat carries
/// none the new seat is spent. It costs one load.
pub fn split_first<A, O, K: Plan<A, O>>(
    words: &SharedWords<K, A, O>,
    seat: &mut ActorSeat<K, O>,
) -> ActorSeat<K, O>
    requires table { (seat.old.table_id ≡ words.now.table_id) × (0 < words.now.table_id.words) }
    ensures stays { (seat.new.table_id ≡ seat.old.table_id) × (seat.new.me ≡ (staying seat.old.me.0, seat.old.me.1)) }
    ensures leaves { (result.table_id ≡ seat.old.table_id) × (result.me ≡ (leaving seat.old.me.0, [])) }
    ensures dealt { (p : _) (a n : ℕ) → seat.old.me.0 ≡ rest_carried p a n → 0 < n → (result.me.0 ≡ one_carried p a) × (seat.new.me.0 ≡ rest_carried p (a + 1) (n - 1)) }
{
    words.split_seat::<FirstActorLeaves>(seat)
}

/// Looks at what the rule says of the seat's actors: none is carried twice. It costs one load.
fn look<A, O, K: Plan<A, O>>(words: &SharedWords<K, A, O>, seat: &mut ActorSeat<K, O>)
    requires table { (seat.old.table_id ≡ words.now.table_id) × (0 < words.now.table_id.words) }
    ensures same { (seat.new.table_id ≡ seat.old.table_id) × (seat.new.me ≡ seat.old.me) }
    ensures once { Once seat.old.me.0.actors }
{
    words.load::<TellsActors<A>>(seat, 0);
}

/// The seat takes over what the other carries, which is spent. `mine` and `its` are actors that they carry. It costs two
/// loads.
pub fn join_other<A, O, K: Plan<A, O>>(
    words: &SharedWords<K, A, O>,
    seat: &mut ActorSeat<K, O>,
    other: ActorSeat<K, O>,
    mine: u32,
    its: u32,
)
    requires table { (seat.old.table_id ≡ words.now.table_id) × (other.table_id ≡ words.now.table_id) × (0 < words.now.table_id.words) }
    requires slotless { other.me.1 ≡ [] }
    requires carries { Carries seat.old.me.0 mine × Carries other.me.0 its }
    ensures same { (seat.new.table_id ≡ seat.old.table_id) × (seat.new.me.1 ≡ seat.old.me.1) × (seat.new.me.0.plan ≡ seat.old.me.0.plan) }
    ensures carries { (a : ℕ) → has seat.new.me.0.actors a ≡ (has seat.old.me.0.actors a || has other.me.0.actors a) }
    ensures apart { (a : ℕ) → Carries seat.old.me.0 a → has other.me.0.actors a ≡ false }
    ensures seen { seat.new.me.0.seen ≡ seat.old.me.0.seen ++ other.me.0.seen }
    ensures own { (a : ℕ) → Carries seat.old.me.0 a → by a seat.new.me.0.log ≡ by a seat.old.me.0.log }
    ensures other { (a : ℕ) → has seat.old.me.0.actors a ≡ false → by a seat.new.me.0.log ≡ by a other.me.0.log }
{
    words.join_seat::<SeatsJoined<A>>(seat, other);
    look(words, seat);
}

/// A table that opens with these words, and a seat that carries all actors of its plan. It takes all the memory that there
/// is need for, and is refused only for want of that.
pub fn open<A, O, K: Plan<A, O>>(
    alloc: Global,
    words: &[u64],
    plan: &K,
) -> Result<
    (
        Table<(), View<K, O>, K, OneLegalList<A, O>, Global>,
        ActorSeat<K, O>,
    ),
    AllocError,
>
    requires shows { ShowsCells (K.setting plan.now).layout words.now (K.setting plan.now).opening }
    ensures table { IfOk result (λ r. (r.0.shared.table_id.words ≡ length words.now) × (r.0.shared.table_id.slots ≡ 0) × (r.0.shared.key ≡ plan.now)) }
    ensures seat { IfOk result (λ r. (r.1.table_id ≡ r.0.shared.table_id) × (r.1.me ≡ (all_carried plan.now (K.setting plan.now).actors, []))) }
{
    Table::of_words(alloc, words, plan)
}

/// The words once nobody steps, which are those after one legal list. It has of each actor that the seat carries exactly its
/// entries, and begins as all that the seat has seen.
pub fn close<A, O, K: Plan<A, O>>(
    table: Table<(), View<K, O>, K, OneLegalList<A, O>, Global>,
    seat: ActorSeat<K, O>,
) -> Closed<(), Global>
    requires { seat.table_id ≡ table.shared.table_id }
    ensures after { IsAfterOneList K.setting table.shared.key seat.me.0 (slots_items result.words) }
    ensures full { IsFull result.words × (slots_len result.words ≡ table.shared.table_id.words) × (slots_len result.slots ≡ table.shared.table_id.slots) }
{
    table.close_with(seat)
}
