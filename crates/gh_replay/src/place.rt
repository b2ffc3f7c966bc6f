//! Where a schedule stands in a run.

ghost use Rattle.std.specs.Prelude.{◌≡◌, ◌<◌, ◌≤◌, ◌%◌, ◌-◌, ◌+◌, ◌==◌, false, not, IfOk, IfSome, IsTrue, None, [], drop, length, option_map, slice_get};
ghost use Rattle.std.specs.List.{filter, range_with_len};
ghost use Rattle.std.specs.Vec.{vec_capacity};
ghost use Rattle.gh_base.specs.Cells.{seats_of};
ghost use Rattle.rand_xoshiro.specs.SplitMix64.{mix_u64};
ghost use Rattle.gh_world.specs.Schedule.{behind, first_going, turn_from};
ghost use Rattle.gh_world.specs.World.{actors_of, is_done, layout_of, AllDone};
ghost use Rattle.gh_replay.specs.Places.{AllGoOn, KnowsThoseGoing, seen_of, standing_at};
ghost use Rattle.gh_replay.specs.Standing.{
  going,
  is_gone,
  is_over,
  moved,
  moved_at,
  one_less,
  opening,
  passed,
  to_come,
  who,
  who_at,
  who_behind,
  with_actor_ended,
};

use crate::schedule::{Schedule, Turn, Until};
use gh_world::World;
use rand_core::SeedableRng;
use rand_core::utils::NextWord;
use rand_xoshiro::SplitMix64;
use std::alloc::{AllocError, Global};

/// Where a schedule stands: the items from place `at` on are to come, the first of them with the turns that
/// it has left; by it, or behind all, it would be the turn of `next`, or the generator draws.
#[derive(Drop)]
pub struct Place {
    list: Vec<Turn>,
    at: usize,
    next: u8,
    drawn: Option<SplitMix64>,
    // The world's actors, and that no item is to come, none is drawn and none is done, as it is for most turns of most runs: then
    // nothing is asked.
    actors: u8,
    in_rounds: bool,
}

impl Place {
    /// Before the first step. `kept` is empty, and where there is a seed it has room for all actors, and is filled.
    pub fn opening(world: &World, schedule: Schedule, kept: &mut Vec<u8>) -> Place
        requires empty { kept.old.items ≡ [] }
        requires room { IfSome schedule.seed (λ seed. actors_of world.now ≤ vec_capacity kept.old) }
        ensures stands { standing_at result ≡ opening schedule }
        ensures within { result.at ≤ length result.list.items }
        ensures kept { KnowsThoseGoing result kept.new.items world.now }
    {
        let Schedule { list, seed } = schedule;
        let drawn = match seed {
            Some(seed) => {
                add_going(world, kept);
                Some(SplitMix64::seed_from_u64(seed))
            }
            None => None,
        };
        let in_rounds = list.len() == 0 && drawn.is_none() && all_go_on(world);
        Place {
            list,
            at: 0,
            next: 0,
            drawn,
            actors: world.actors(),
            in_rounds,
        }
    }

    /// An actor is done by its step: of each actor once in a run, so apart from its turns.
    #[cold]
    pub fn take_out(&mut self, kept: &mut Vec<u8>, actor: u8)
        ensures kept { kept.new.items ≡ filter (λ a. not (actor == a)) kept.old.items }
        ensures place { self.new ≡ record self.old { in_rounds = false } }
    {
        kept.retain(|a| actor != *a);
        self.in_rounds = false;
    }

    /// Who steps next, where anybody does; the place is then that behind this step. Where the generator draws, it
    /// draws among the actors that are kept.
    pub fn take_turn(&mut self, world: &World, kept: &Vec<u8>) -> Option<u8>
        requires within { self.old.at ≤ length self.old.list.items }
        requires next { self.old.next < actors_of world.now }
        requires kept { KnowsThoseGoing self.old kept.now.items world.now }
        ensures who { result ≡ who (seen_of world.now) (standing_at self.old) }
        ensures moved { IfSome result (λ a. standing_at self.new ≡ moved (seen_of world.now) a (standing_at self.old)) }
        ensures within { self.new.at ≤ length self.new.list.items }
        ensures next { self.new.next < actors_of world.now }
        ensures kept { KnowsThoseGoing self.new kept.now.items world.now }
        ensures going { IfSome result (λ a. (a < actors_of world.now) × (is_done world.now a ≡ false)) }
        ensures over { result ≡ None → AllDone world.now }
        ensures seats { actors_of world.now ≡ seats_of (layout_of world.now) }
    {
        if self.in_rounds {
            let actor = self.next;
            self.next = behind(self.actors, actor);
            return Some(actor);
        }
        self.pass_items(world);
        self.take_next(world, kept)
    }

    /// Passes the items that have ended. Behind one of them it would be the turn of actor 0.
    fn pass_items(&mut self, world: &World)
        requires within { self.old.at ≤ length self.old.list.items }
        requires next { self.old.next < actors_of world.now }
        ensures passed { standing_at self.new ≡ passed (seen_of world.now) (standing_at self.old) }
        ensures within { self.new.at ≤ length self.new.list.items }
        ensures next { self.new.next < actors_of world.now }
        ensures drawn { self.new.drawn ≡ self.old.drawn }
        ensures actors { self.new.actors ≡ self.old.actors }
        ensures rounds { self.new.in_rounds ≡ self.old.in_rounds }
    {
        if self.at < self.list.len() {
            if is_over(world, self.list[self.at]) {
                self.at = first_to_come(world, &self.list, self.at + 1);
                self.next = 0;
            }
        }
    }

    /// Who steps next by the first item, which has not ended, or behind all.
    fn take_next(&mut self, world: &World, kept: &Vec<u8>) -> Option<u8>
        requires asked { self.old.in_rounds ≡ false }
        requires within { self.old.at ≤ length self.old.list.items }
        requires next { self.old.next < actors_of world.now }
        requires kept { KnowsThoseGoing self.old kept.now.items world.now }
        ensures who { result ≡ who_at (seen_of world.now) (standing_at self.old) }
        ensures moved { IfSome result (λ a. standing_at self.new ≡ moved_at (seen_of world.now) a (standing_at self.old)) }
        ensures within { self.new.at ≤ length self.new.list.items }
        ensures next { self.new.next < actors_of world.now }
        ensures kept { KnowsThoseGoing self.new kept.now.items world.now }
        ensures seats { actors_of world.now ≡ seats_of (layout_of world.now) }
    {
        if self.at < self.list.len() {
            let turn = self.list[self.at];
            self.list[self.at] = one_less(turn);
            return match turn.until {
                Until::Steps(_) => Some(turn.actor),
                Until::Marks(_) => Some(turn.actor),
                Until::Without(_) => {
                    match who_else(world, turn.actor, self.next, &mut self.drawn, kept) {
                        Some(other) => {
                            self.next = behind(self.actors, other);
                            Some(other)
                        }
                        None => None,
                    }
                }
            };
        }
        match who_behind(world, self.next, &mut self.drawn, kept) {
            Some(actor) => {
                self.next = behind(self.actors, actor);
                Some(actor)
            }
            None => None,
        }
    }
}

/// An empty vector, with room for all actors where there is a seed.
pub fn room_to_keep(alloc: Global, world: &World, seed: Option<u64>) -> Result<Vec<u8>, AllocError>
    ensures empty { IfOk result (λ v. v.items ≡ []) }
    ensures room { IfOk result (λ v. IfSome seed (λ s. actors_of world.now ≤ vec_capacity v)) }
{
    match seed {
        Some(_) => Vec::with_capacity(alloc, usize::from(world.actors())),
        None => Ok(Vec::new(alloc)),
    }
}

/// Puts the actors that are not done into an empty vector, in ascending order.
fn add_going(world: &World, kept: &mut Vec<u8>)
    requires empty { kept.old.items ≡ [] }
    requires room { actors_of world.now ≤ vec_capacity kept.old }
    ensures { kept.new.items ≡ going (seen_of world.now) }
{
    for a in 0..world.actors() {
        if !world.is_done(a) {
            kept.push_reserved(a);
        }
    }
}

/// No actor is done.
fn all_go_on(world: &World) -> bool
    ensures { IsTrue result → AllGoOn world.now }
{
    for a in 0..world.actors() {
        if world.is_done(a) {
            return false;
        }
    }
    true
}

/// The actor behind this one, which exists.
fn behind(actors: u8, actor: u8) -> u8
    requires { actor < actors }
    ensures { result ≡ behind actors actor }
{
    if actor + 1 < actors { actor + 1 } else { 0 }
}

/// What an item has left once a turn of it is taken.
fn one_less(turn: Turn) -> Turn
    ensures { result ≡ one_less turn }
{
    let until = match turn.until {
        Until::Steps(n) => Until::Steps(n.saturating_sub(1)),
        Until::Marks(m) => Until::Marks(m),
        Until::Without(n) => Until::Without(n.saturating_sub(1)),
    };
    Turn {
        actor: turn.actor,
        until,
    }
}

/// The actor does not exist or is done.
fn is_gone(world: &World, actor: u8) -> bool
    ensures is { result ≡ is_gone (seen_of world.now) actor }
    ensures there { result ≡ false → actor < actors_of world.now }
{
    actor >= world.actors() || world.is_done(actor)
}

/// The item has ended: its actor does not exist or is done, or has its steps or its marks; or where others take its
/// turns, all are taken, or all others are done.
fn is_over(world: &World, turn: Turn) -> bool
    ensures { result ≡ is_over (seen_of world.now) turn }
{
    match turn.until {
        Until::Steps(n) => is_gone(world, turn.actor) || n == 0,
        Until::Marks(m) => is_gone(world, turn.actor) || world.marks(turn.actor) >= m,
        Until::Without(n) => n == 0 || is_alone(world, turn.actor),
    }
}

/// The first actor from `low` on and below `high` that is not done and is another than this.
fn first_other(world: &World, actor: u8, low: u8, high: u8) -> Option<u8>
    requires { high ≤ actors_of world.now }
    ensures { result ≡ first_going (with_actor_ended actor (seen_of world.now)).ended (range_with_len low (high - low)) }
{
    for other in low..high {
        if !is_out(world, actor, other) {
            return Some(other);
        }
    }
    None
}

/// The other actor is this one, or is done.
fn is_out(world: &World, actor: u8, other: u8) -> bool
    requires { other < actors_of world.now }
    ensures { result ≡ (with_actor_ended actor (seen_of world.now)).ended other }
{
    actor == other || world.is_done(other)
}

/// All but this actor are done.
fn is_alone(world: &World, actor: u8) -> bool
    ensures { result ≡ (length (going (with_actor_ended actor (seen_of world.now))) == 0) }
{
    match first_other(world, actor, 0, world.actors()) {
        Some(_) => false,
        None => true,
    }
}

/// Where the first item that has not ended stands, from this place on, or the length.
fn first_to_come(world: &World, list: &[Turn], at: usize) -> usize
    requires { at ≤ length list.now }
    ensures items { drop result list.now ≡ to_come (seen_of world.now) (drop at list.now) }
    ensures within { result ≤ length list.now }
{
    for i in at..list.len() {
        if !is_over(world, list[i]) {
            return i;
        }
    }
    list.len()
}

/// Who steps next behind the items. Where the generator draws, it draws among those that are kept.
fn who_behind(world: &World, next: u8, drawn: &mut Option<SplitMix64>, kept: &Vec<u8>) -> Option<u8>
    requires next { next < actors_of world.now }
    requires kept { IfSome drawn.old (λ x. kept.now.items ≡ going (seen_of world.now)) }
    ensures who { result ≡ who_behind (seen_of world.now) next drawn.old }
    ensures drawn { drawn.new ≡ option_map (λ x. (mix_u64 x).1) drawn.old }
{
    match drawn {
        Some(generator) => chosen(kept, generator.next_word()),
        None => in_turn(world, next),
    }
}

/// Who steps next by an item without this actor, as `who_behind`, were it done.
#[cold]
fn who_else(
    world: &World,
    actor: u8,
    next: u8,
    drawn: &mut Option<SplitMix64>,
    kept: &Vec<u8>,
) -> Option<u8>
    requires next { next < actors_of world.now }
    requires kept { IfSome drawn.old (λ x. kept.now.items ≡ going (seen_of world.now)) }
    ensures who { result ≡ who_behind (with_actor_ended actor (seen_of world.now)) next drawn.old }
    ensures drawn { drawn.new ≡ option_map (λ x. (mix_u64 x).1) drawn.old }
{
    match drawn {
        Some(generator) => chosen_else(kept, actor, generator.next_word()),
        None => in_turn_else(world, actor, next),
    }
}

/// Who steps next where others than this actor take turns.
fn in_turn_else(world: &World, actor: u8, next: u8) -> Option<u8>
    requires { next < actors_of world.now }
    ensures { result ≡ turn_from (with_actor_ended actor (seen_of world.now)).ended (actors_of world.now) next }
{
    match first_other(world, actor, next, world.actors()) {
        Some(other) => Some(other),
        None => first_other(world, actor, 0, next),
    }
}

/// The actor that a word says among these, but for this one.
fn chosen_else(kept: &[u8], actor: u8, word: u64) -> Option<u8>
    ensures { result ≡ slice_get (filter (λ a. not (actor == a)) kept.now) (word % length (filter (λ a. not (actor == a)) kept.now)) }
{
    let count = count_others(kept, actor) as u64;
    if count == 0 {
        return None;
    }
    other_at(kept, actor, (word % count) as usize)
}

/// How many of these are others than this actor.
fn count_others(kept: &[u8], actor: u8) -> usize
    ensures { result ≡ length (filter (λ a. not (actor == a)) kept.now) }
{
    let mut count = 0;
    for a in kept {
        if actor != *a {
            count += 1;
        }
    }
    count
}

/// The one of number `k`, counted from 0, among these but for this actor.
fn other_at(kept: &[u8], actor: u8, k: usize) -> Option<u8>
    ensures { result ≡ slice_get (filter (λ a. not (actor == a)) kept.now) k }
{
    let mut before = k;
    for a in kept {
        if actor != *a {
            if before == 0 {
                return Some(*a);
            }
            before -= 1;
        }
    }
    None
}

/// Who steps next where actors take turns. Mostly `next` is not done, so that is asked first.
fn in_turn(world: &World, next: u8) -> Option<u8>
    requires { next < actors_of world.now }
    ensures { result ≡ turn_from (is_done world.now) (actors_of world.now) next }
{
    if !world.is_done(next) {
        return Some(next);
    }
    world.turn_from(next)
}

/// The actor that a word says among these.
fn chosen(kept: &[u8], word: u64) -> Option<u8>
    ensures { result ≡ slice_get kept.now (word % length kept.now) }
{
    let count = kept.len() as u64;
    if count == 0 {
        return None;
    }
    Some(kept[(word % count) as usize])
}
