//! Whose turn it is: the items of a list, and after them the actors in ascending order, or those that a seed draws.

ghost use Rattle.std.specs.Prelude.{◌≡◌, ◌<◌, IfSome, true, false};
ghost use Rattle.gh_world.specs.World.{actors_of, is_done};

use gh_replay::{Schedule, Turn, Until};
use gh_world::World;
use rand_core::SeedableRng;
use rand_core::utils::NextWord;
use rand_xoshiro::SplitMix64;

/// The items that are to come, and whose turn it would be behind them.
#[derive(Drop)]
pub struct Order {
    list: Vec<Turn>,
    at: usize,
    // The turns of the item at `at` that are taken.
    taken: u32,
    // Whose turn it would be in ascending order, by that item or behind all.
    next: u8,
    // What draws, if there is a seed.
    drawn: Option<SplitMix64>,
}

impl Order {
    /// Before the first turn.
    pub fn new(schedule: Schedule) -> Order {
        let Schedule { list, seed } = schedule;
        let drawn = match seed {
            Some(seed) => Some(SplitMix64::seed_from_u64(seed)),
            None => None,
        };
        Order {
            list,
            at: 0,
            taken: 0,
            next: 0,
            drawn,
        }
    }

    /// Who steps next, where anybody does.
    pub fn next(&mut self, world: &World) -> Option<u8>
        ensures { IfSome result (λ a. (a < actors_of world.now) × (is_done world.now a ≡ false)) }
    {
        for i in self.at..self.list.len() {
            if i > self.at {
                self.at = i;
                self.taken = 0;
                self.next = 0;
            }
            let turn = self.list[i];
            if let Some(actor) = by_item(world, turn, self.taken, self.next, &mut self.drawn) {
                self.taken = self.taken.saturating_add(1);
                self.next = actor.saturating_add(1);
                return Some(actor);
            }
        }
        if self.at < self.list.len() {
            self.at = self.list.len();
            self.next = 0;
        }
        if let Some(generator) = &mut self.drawn {
            return chosen(world, None, generator.next_word());
        }
        let actor = world.turn_from(or_lowest(world, self.next)?)?;
        self.next = actor.saturating_add(1);
        Some(actor)
    }
}

/// The actor is not done, and is not the one without which turns are taken.
fn is_among(world: &World, without: Option<u8>, actor: u8) -> bool
    requires { actor < actors_of world.now }
    ensures { result ≡ true → is_done world.now actor ≡ false }
{
    without != Some(actor) && !world.is_done(actor)
}

/// The actor that a word draws among those.
fn chosen(world: &World, without: Option<u8>, word: u64) -> Option<u8>
    ensures { IfSome result (λ a. (a < actors_of world.now) × (is_done world.now a ≡ false)) }
{
    let mut many = 0u64;
    for actor in 0..world.actors() {
        if is_among(world, without, actor) {
            many = many.saturating_add(1);
        }
    }
    if many == 0 {
        return None;
    }
    let mut before = word % many;
    for actor in 0..world.actors() {
        if is_among(world, without, actor) {
            if before == 0 {
                return Some(actor);
            }
            before = before.saturating_sub(1);
        }
    }
    None
}

/// This actor, or the lowest where there is none of that number.
fn or_lowest(world: &World, actor: u8) -> Option<u8>
    ensures { IfSome result (λ a. a < actors_of world.now) }
{
    let from = if actor < world.actors() { actor } else { 0 };
    if from < world.actors() {
        Some(from)
    } else {
        None
    }
}

/// Who steps next by the item, of which so many turns are taken; none where it has ended.
fn by_item(
    world: &World,
    turn: Turn,
    taken: u32,
    next: u8,
    drawn: &mut Option<SplitMix64>,
) -> Option<u8>
    ensures { IfSome result (λ a. (a < actors_of world.now) × (is_done world.now a ≡ false)) }
{
    if let Until::Without(n) = turn.until {
        let other = another(world, turn.actor, next)?;
        if taken >= n {
            return None;
        }
        return match drawn {
            Some(generator) => chosen(world, Some(turn.actor), generator.next_word()),
            None => Some(other),
        };
    }
    if goes_on(world, turn, taken) {
        return Some(turn.actor);
    }
    None
}

/// Whose turn it is among others than this actor, where it would be that of `next`.
fn another(world: &World, actor: u8, next: u8) -> Option<u8>
    ensures { IfSome result (λ a. (a < actors_of world.now) × (is_done world.now a ≡ false)) }
{
    let first = world.turn_from(or_lowest(world, next)?)?;
    if first != actor {
        return Some(first);
    }
    let second = world.turn_from(or_lowest(world, first.saturating_add(1))?)?;
    if second != actor { Some(second) } else { None }
}

/// The item has not ended, once its actor took so many steps by it.
fn goes_on(world: &World, turn: Turn, taken: u32) -> bool
    ensures { result ≡ true → (turn.actor < actors_of world.now) × (is_done world.now turn.actor ≡ false) }
{
    if turn.actor >= world.actors() || world.is_done(turn.actor) {
        return false;
    }
    match turn.until {
        Until::Steps(n) => taken < n,
        Until::Marks(m) => world.marks(turn.actor) < m,
        Until::Without(_) => false,
    }
}
