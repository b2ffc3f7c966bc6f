//! What a processor alone knows, between its steps: its registers, the spans that it has cached, and the scans
//! of its stacks.
//!
//! The poll keeps it, since it reads and changes all of it: so nothing of it is copied where a poll or a wait
//! begins or ends.

ghost use Rattle.std.specs.Prelude.{◌≡◌, ◌<◌, length, true};
ghost use Rattle.gh_base.specs.declared.layout.Layout.{Layout};
ghost use Rattle.gh_base.specs.declared.limits.TheConstants.{MOST_GOROUTINES};
ghost use Rattle.gh_class.specs.declared.class.TheConstants.{SPAN_CLASSES};
ghost use Rattle.gh_alloc.specs.FindSound.{IsCached};
ghost use Rattle.gh_poll.specs.Leave.{is_busy};
ghost use Rattle.gh_poll.specs.LeaveSound.{SoundLeaving};
ghost use Rattle.gh_poll.specs.Local.{cached_at, first_local, leaving, marking_at, register_at, with_cached, with_ended, with_nothing, with_register_value};
ghost use Rattle.gh_poll.specs.PollSound.{SoundLocal, SoundPolling};
ghost use Rattle.gh_poll.specs.Registers.{IsRegister};

use crate::give::no_spans;
use crate::leave::Leave;
use crate::poll::{Local, Poll};
use gh_alloc::{CachedSpan, Sought};
use gh_base::limits::MOST_GOROUTINES;
use gh_base::{END, Layout, Value};
use gh_class::size_class_laws;
use gh_phase::{RunPhase, View};
use gh_stack::REGISTER_COUNT;

impl Local {
    /// What a processor knows when the heap opens: no span is cached, no buffer held, no stack scanned, and
    /// each register is nil.
    pub fn first() -> Local
        ensures is { result ≡ first_local }
        ensures fits { (l : Layout) → SoundLocal l result }
    {
        let view = View::first();
        let cache = no_spans();
        Local {
            view,
            cache,
            held: None,
            polls: 0,
            owed: 0,
            spent: 0,
            scanned: [0; MOST_GOROUTINES as usize],
            stacks: [[Value::Nil; REGISTER_COUNT]; MOST_GOROUTINES as usize],
        }
    }
}

impl Poll {
    /// The processor's seat.
    #[inline(always)]
    pub fn seat(&self) -> u32
        ensures { result ≡ self.now.seat }
    {
        self.seat
    }

    /// The sweep generation that the processor knows.
    #[inline(always)]
    pub fn generation(&self) -> u64
        ensures { result ≡ self.now.local.view.generation }
    {
        self.local.view.generation
    }

    /// Marking is on, as the processor knows.
    #[inline(always)]
    pub fn marking(&self) -> bool
        ensures { result ≡ marking_at self.now }
    {
        matches!(self.local.view.phase, RunPhase::Mark)
    }

    /// What register `d` of goroutine `g` holds.
    #[inline(always)]
    pub fn register(&self, g: u32, d: u32) -> Value
        requires stacks { length self.now.local.stacks ≡ MOST_GOROUTINES }
        requires there { IsRegister g d }
        ensures { result ≡ register_at self.now g d }
    {
        self.local.stacks[g as usize][d as usize]
    }

    /// Register `d` of goroutine `g` takes a value.
    #[inline(always)]
    pub fn set_register(&mut self, g: u32, d: u32, value: Value)
        requires stacks { length self.old.local.stacks ≡ MOST_GOROUTINES }
        requires there { IsRegister g d }
        ensures { self.new ≡ with_register_value self.old g d value }
    {
        self.local.stacks[g as usize][d as usize] = value;
    }

    /// The span that is cached for such an object; a large one has its span for itself.
    #[inline(always)]
    pub fn cached_for(&self, layout: &Layout, sought: &Sought) -> Option<CachedSpan>
        requires { SoundPolling layout.now self.now }
        ensures is { result ≡ cached_at self.now sought.now }
        ensures fits { IsCached layout.now sought.now result }
    {
        let _ = layout;
        match sought {
            Sought::Small(class) => self.local.cache[class.index() as usize],
            Sought::Large { .. } => None,
        }
    }

    /// The span is cached for such objects from now on, if one is.
    #[inline(always)]
    pub fn cache_span(&mut self, layout: &Layout, sought: &Sought, cached: Option<CachedSpan>)
        requires sound { SoundPolling layout.now self.old }
        requires cached { IsCached layout.now sought.now cached }
        ensures is { self.new ≡ with_cached self.old sought.now cached }
        ensures sound { SoundPolling layout.now self.new }
    {
        let _ = layout;
        match sought {
            Sought::Small(class) => self.local.cache[class.index() as usize] = cached,
            Sought::Large { .. } => {}
        }
    }

    /// Goroutine `g` has ended: its stack counts as scanned in each cycle to come.
    pub fn end(&mut self, g: u32)
        requires scanned { length self.old.local.scanned ≡ MOST_GOROUTINES }
        requires there { g < MOST_GOROUTINES }
        ensures { self.new ≡ with_ended self.old g }
    {
        self.local.scanned[g as usize] = END;
    }

    /// The processor leaves, with what it holds of the heap; it holds nothing any more.
    pub fn leave(&mut self, layout: &Layout) -> Leave
        requires sound { SoundPolling layout.now self.old }
        ensures leave { result ≡ leaving self.old }
        ensures leaves { SoundLeaving layout.now result }
        ensures begun { is_busy result.stage ≡ true }
        ensures nothing { self.new ≡ with_nothing self.old }
        ensures sound { SoundPolling layout.now self.new }
    {
        let generation = self.local.view.generation;
        let (cache, held) = (self.local.cache, self.local.held);
        let leave = Leave::new(layout, self.seat, generation, cache, held);
        self.local.cache = no_spans();
        self.local.held = None;
        leave
    }
}
