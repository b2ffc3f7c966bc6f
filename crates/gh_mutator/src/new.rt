//! A new object: the search for its slot, the wait for a cycle where there is none, the search once more, and
//! the making of the object in its slot. Where the heap's bytes with the object's reach the trigger, as the making
//! tells (`gh_alloc`), it asks for a cycle behind that, and is answered then: it has its object and waits for nothing.
//! So the object is counted before the cycle is opened. While one is under way the trigger is 2^64 - 1, so that a
//! second is not asked for.

ghost use Rattle.std.specs.Prelude.{◌≡◌, ◌+◌, ◌*◌, ◌^◌, ◌<◌, ◌≤◌, length, true, false, IfSome, None, Some};
ghost use Rattle.gh_alloc.specs.FindSound.{FitsPages};
ghost use Rattle.gh_alloc.specs.PlaceSound.{FitsSpanHead};
ghost use Rattle.gh_alloc.specs.Within.{LiesWithin};
ghost use Rattle.gh_base.specs.Machines.{Runs};
ghost use Rattle.gh_mutator.specs.Listing.{gives, takes};
ghost use Rattle.gh_alloc.specs.Place as places;
ghost use Rattle.gh_alloc.specs.Search as sought;
ghost use Rattle.gh_mutator.specs.New.{after_found, answer_found, answer_made, makes, next_of, own_span, placing, searches, seeking, wanted_of};
ghost use Rattle.gh_mutator.specs.NewParts.{after_making, made_at, made_by_step, MakingFits};
ghost use Rattle.gh_mutator.specs.Processor.{at_task, made_by};
ghost use Rattle.gh_poll.specs.Local.{marking_at, with_cached};
ghost use Rattle.gh_mutator.specs.Serving.{is_making};
ghost use Rattle.gh_base.specs.Shapes.{ShapesFit};
ghost use Rattle.gh_base.specs.declared.limits.TheConstants.{MOST_GOROUTINES};
ghost use Rattle.gh_poll.specs.PollSound.{SoundPolling};
ghost use Rattle.gh_poll.specs.Registers.{IsRegister};
ghost use Rattle.gh_mutator.specs.Sound.{Sound, SoundSearch, SoundWanted};

use crate::processor::Processor;
use crate::task::{LargeTask, TaskAt};
use gh_alloc::laws::{making_is_a_routine, searching_is_a_routine};
use gh_alloc::{Found, Place, Search, Sought};
use gh_assist::Assist;
use gh_assist::laws::assist_is_a_routine;
use gh_base::{Answer, Layout, Name, Routine, Shapes, SpanHead, Value};
use gh_class::{SizeClass, SpanClass, size_class_laws, slot_words};
use gh_poll::{Poll, Wait};

/// An object that is to be made: of type `t`, for register `d` of goroutine `g`.
#[derive(Clone, Copy, Debug, PartialEq, Eq)]
pub struct Wanted {
    pub g: u32,
    pub d: u32,
    pub t: u32,
    /// The words of its slot.
    pub slot: u32,
    /// What is sought for it.
    pub sought: Sought,
}

/// Where a new object stands.
#[derive(Drop)]
pub enum NewStage<'s> {
    /// The search for its slot: before a cycle was waited for, or behind that.
    Search { waited: bool, search: Search },
    /// There was no room: a cycle is waited for.
    Wait(Wait),
    /// The making of it in its slot.
    Place(Place<'s>),
    /// It is made, under this name, and a cycle is due, which is asked for.
    Want(Name),
    /// It is made, under this name, while marking is on: the processor assists.
    Assist(Name, Assist),
}

/// A new object.
#[derive(Drop)]
pub struct New<'s> {
    pub wanted: Wanted,
    pub stage: NewStage<'s>,
}

impl Wanted {
    /// An object of type `t`: the words of its slot, and what is sought for it.
    fn of(shapes: &Shapes, g: u32, d: u32, t: u32) -> Wanted
        requires there { t < length shapes.now }
        requires fit { ShapesFit shapes.now }
        ensures { result ≡ wanted_of shapes.now g d t }
    {
        let words = shapes.words(t);
        let noscan = shapes.noscan(t);
        let slot = slot_words(words);
        let sought = match SizeClass::of_words(words) {
            SizeClass::Small(class) => Sought::Small(SpanClass { class, noscan }),
            SizeClass::Large => Sought::Large {
                pages: slot / 1024,
                noscan,
            },
        };
        Wanted {
            g,
            d,
            t,
            slot,
            sought,
        }
    }
}

/// A step of the search for this object: the poll caches the span that the search has cached then.
fn seek(
    layout: &Layout,
    poll: &mut Poll,
    wanted: &Wanted,
    search: &mut Search,
    found: u64,
) -> Option<Found>
    requires polls { SoundPolling layout.now poll.old }
    requires searches { SoundSearch layout.now poll.old wanted.now search.old }
    ensures goes { search.new ≡ sought.goes layout.now search.old found }
    ensures gives { result ≡ sought.gives layout.now search.old found }
    ensures caches { poll.new ≡ with_cached poll.old wanted.now.sought search.new.find.cached }
    ensures within { IfSome result (LiesWithin layout.now wanted.now.sought) }
    ensures polls { SoundPolling layout.now poll.new }
{
    let out = search.take(layout, found);
    poll.cache_span(layout, &wanted.sought, search.cached());
    out
}

/// A step of the making: the object's first heap word, where the step makes the object, and whether a cycle is to be
/// asked for, where the making is over.
fn make(place: &mut Place<'_>, layout: &Layout, found: u64) -> (Option<u32>, Option<bool>)
    requires { Runs (places.listing layout.now) place.old }
    ensures goes { place.new ≡ places.goes place.old found }
    ensures made { result.0 ≡ made_at place.old }
    ensures asks { result.1 ≡ places.gives place.old found }
    ensures fits { MakingFits layout.now result.0 }
{
    let made = if place.acts() {
        Some(place.word())
    } else {
        None
    };
    (made, place.take(layout, found))
}

impl<'s> Processor<'s> {
    /// Begins a new object of type `t` for register `d` of goroutine `g`.
    pub(crate) fn begin_new(&mut self, layout: &Layout, shapes: &Shapes, g: u32, d: u32, t: u32)
        requires polls { SoundPolling layout.now self.old.poll }
        requires fit { ShapesFit shapes.now }
        requires register { IsRegister g d }
        requires there { t < length shapes.now }
        ensures { self.new ≡ at_task self.old (searches (wanted_of shapes.now g d t) false (seeking self.old (wanted_of shapes.now g d t))) }
    {
        size_class_laws();
        let wanted = Wanted::of(shapes, g, d, t);
        let search = self.seeking(layout, shapes, &wanted);
        let stage = NewStage::Search {
            waited: false,
            search,
        };
        self.large = LargeTask::New(New { wanted, stage });
        self.at = TaskAt::Large;
    }

    /// The search for a slot for such an object.
    fn seeking(&self, layout: &Layout, shapes: &Shapes, wanted: &Wanted) -> Search
        requires polls { SoundPolling layout.now self.now.poll }
        requires wanted { SoundWanted shapes.now wanted.now }
        ensures { result ≡ seeking self.now wanted.now }
    {
        let cached = self.poll.cached_for(layout, &wanted.sought);
        Search::new(
            self.poll.seat(),
            self.poll.generation(),
            wanted.sought,
            cached,
        )
    }

    /// What the first page of a large object's span says while it is being made.
    fn own_span(&self, layout: &Layout, sought: &Sought) -> Option<SpanHead>
        requires polls { SoundPolling layout.now self.now.poll }
        requires fits { FitsPages sought.now }
        ensures is { result ≡ own_span self.now.poll.seat self.now.poll.local.view.generation sought.now }
        ensures fits { FitsSpanHead result }
    {
        let _ = layout;
        match *sought {
            Sought::Small(_) => None,
            Sought::Large { pages, noscan } => Some(SpanHead {
                class: SizeClass::Large,
                noscan,
                pages,
                owner: self.poll.seat() + 1,
                number: self.poll.generation(),
            }),
        }
    }

    /// The name of the object that it makes.
    fn next_name(&self, wanted: &Wanted) -> Name
        requires { wanted.now.g < 32 }
        ensures { result ≡ next_of self.now wanted.now }
    {
        Name {
            g: wanted.g,
            k: self.made[wanted.g as usize],
        }
    }

    /// Goes on by what a step of it found, and answers the statement if it ends with the step.
    pub(crate) fn take_new(
        &mut self,
        layout: &Layout,
        shapes: &'s Shapes,
        found: u64,
    ) -> Option<Answer>
        requires polls { SoundPolling layout.now self.old.poll }
        requires sound { Sound layout.now shapes.now self.old }
        requires making { is_making self.old.task ≡ true }
        ensures goes { self.new ≡ takes layout.now shapes.now self.old found }
        ensures gives { result ≡ gives layout.now self.old found }
        ensures polls { SoundPolling layout.now self.new.poll }
        ensures sound { Sound layout.now shapes.now self.new }
    {
        size_class_laws();
        searching_is_a_routine();
        making_is_a_routine();
        assist_is_a_routine();
        let LargeTask::New(new) = &mut self.large else {
            return None;
        };
        // Most steps end none of its stages, and then no more of what is wanted is looked at than they need.
        match &mut new.stage {
            NewStage::Search { waited, search } => {
                match seek(layout, &mut self.poll, &new.wanted, search, found) {
                    None => None,
                    Some(out) => {
                        let (wanted, waited) = (new.wanted, *waited);
                        self.end_search(layout, shapes, wanted, waited, out)
                    }
                }
            }
            NewStage::Wait(wait) => {
                let ended = wait.take(layout, &mut self.poll, found).is_some();
                if ended {
                    let wanted = new.wanted;
                    self.search_again(layout, shapes, wanted);
                }
                None
            }
            NewStage::Place(place) => {
                let name = place.name();
                let (made, asks) = make(place, layout, found);
                let wanted = new.wanted;
                self.after_place(layout, wanted, made, name, asks)
            }
            NewStage::Want(name) => {
                let name = *name;
                self.at = TaskAt::Idle;
                Some(Answer::Ref(name))
            }
            NewStage::Assist(name, assist) => {
                assist.take(layout, found)?;
                let (name, assist) = (*name, *assist);
                self.poll.pay(layout, &assist);
                self.at = TaskAt::Idle;
                Some(Answer::Ref(name))
            }
        }
    }

    /// The search, before or behind the wait, has ended and has found this: the object is made in the slot, and
    /// marked where the processor knows that marking is on, which it does not change its mind of before the
    /// statement ends; where there is no room, a cycle is waited for, and behind that the statement ends.
    fn end_search(
        &mut self,
        layout: &Layout,
        shapes: &'s Shapes,
        wanted: Wanted,
        waited: bool,
        out: Found,
    ) -> Option<Answer>
        requires polls { SoundPolling layout.now self.old.poll }
        requires wanted { SoundWanted shapes.now wanted }
        requires slot { LiesWithin layout.now wanted.sought out }
        ensures goes { self.new ≡ after_found shapes.now self.old wanted waited out }
        ensures polls { SoundPolling layout.now self.new.poll }
        ensures gives { result ≡ answer_found waited out }
    {
        match out {
            Found::At(at) => {
                self.begin_place(layout, shapes, wanted, at);
                None
            }
            Found::NoRoom if waited => {
                self.poll.set_register(wanted.g, wanted.d, Value::Nil);
                self.at = TaskAt::Idle;
                Some(Answer::Full)
            }
            Found::NoRoom => {
                let stage = NewStage::Wait(Wait::begin(&self.poll));
                self.large = LargeTask::New(New { wanted, stage });
                self.at = TaskAt::Large;
                None
            }
        }
    }

    /// The object is made next, in the slot from this heap word on.
    #[inline(always)]
    pub(crate) fn begin_place(
        &mut self,
        layout: &Layout,
        shapes: &'s Shapes,
        wanted: Wanted,
        at: u32,
    )
        requires polls { SoundPolling layout.now self.old.poll }
        requires wanted { SoundWanted shapes.now wanted }
        ensures { self.new ≡ at_task self.old (makes wanted (placing shapes.now self.old wanted at)) }
    {
        let shape = &shapes.rows[wanted.t as usize];
        let name = self.next_name(&wanted);
        let span = self.own_span(layout, &wanted.sought);
        let marking = self.poll.marking();
        let place = Place::new(shape, at, wanted.slot, name, span, marking);
        let stage = NewStage::Place(place);
        self.large = LargeTask::New(New { wanted, stage });
        self.at = TaskAt::Large;
    }

    /// A cycle has been swept: the slot is searched for once more.
    fn search_again(&mut self, layout: &Layout, shapes: &Shapes, wanted: Wanted)
        requires polls { SoundPolling layout.now self.old.poll }
        requires wanted { SoundWanted shapes.now wanted }
        ensures { self.new ≡ at_task self.old (searches wanted true (seeking self.old wanted)) }
    {
        let search = self.seeking(layout, shapes, &wanted);
        let stage = NewStage::Search {
            waited: true,
            search,
        };
        self.large = LargeTask::New(New { wanted, stage });
        self.at = TaskAt::Large;
    }

    /// After a step of the making of the object of this name, by which it was made at this heap word, or not, and
    /// which is over where it says whether a cycle is to be asked for.
    fn after_place(
        &mut self,
        layout: &Layout,
        wanted: Wanted,
        made: Option<u32>,
        name: Name,
        asks: Option<bool>,
    ) -> Option<Answer>
        requires polls { SoundPolling layout.now self.old.poll }
        requires register { IsRegister wanted.g wanted.d }
        requires slot { 8 * wanted.slot ≤ 2 ^ 31 }
        requires name { IfSome made (λ _. made_by self.old wanted.g + 1 < 2 ^ 32) }
        requires fits { MakingFits layout.now made }
        ensures goes { self.new ≡ after_making self.old wanted made name asks }
        ensures gives { result ≡ answer_made (marking_at self.old.poll) name asks }
        ensures polls { SoundPolling layout.now self.new.poll }
    {
        self.add_object(layout, &wanted, made);
        self.end_making(layout, wanted, name, asks?)
    }

    /// The making of the object of this name is over, and says whether a cycle is to be asked for.
    // Few steps end it. What is written then stands apart, so that the others clear no room for it.
    #[inline(never)]
    fn end_making(
        &mut self,
        layout: &Layout,
        wanted: Wanted,
        name: Name,
        asks: bool,
    ) -> Option<Answer>
        requires polls { SoundPolling layout.now self.old.poll }
        requires slot { 8 * wanted.slot ≤ 2 ^ 31 }
        ensures goes { self.new ≡ after_making self.old wanted None name (Some asks) }
        ensures gives { result ≡ answer_made (marking_at self.old.poll) name (Some asks) }
    {
        let stage = if asks {
            NewStage::Want(name)
        } else if self.poll.marking() {
            NewStage::Assist(name, self.poll.assist(layout, wanted.slot))
        } else {
            self.at = TaskAt::Idle;
            return Some(Answer::Ref(name));
        };
        self.large = LargeTask::New(New { wanted, stage });
        self.at = TaskAt::Large;
        None
    }

    /// Where the object was made at this heap word, it is there: it is counted, and the register names it.
    fn add_object(&mut self, layout: &Layout, wanted: &Wanted, made: Option<u32>)
        requires polls { SoundPolling layout.now self.old.poll }
        requires register { IsRegister wanted.now.g wanted.now.d }
        requires name { IfSome made (λ _. made_by self.old wanted.now.g + 1 < 2 ^ 32) }
        requires fits { MakingFits layout.now made }
        ensures is { self.new ≡ made_by_step self.old wanted.now made }
        ensures polls { SoundPolling layout.now self.new.poll }
    {
        let _ = layout;
        if let Some(at) = made {
            self.made[wanted.g as usize] += 1;
            let reference = Value::Ref(u64::from(at) + 1);
            self.poll.set_register(wanted.g, wanted.d, reference);
        }
    }
}
