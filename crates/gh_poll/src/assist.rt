//! The assist of a processor: who makes an object while marking is on marks for it.
//!
//! `gh_assist` has the assist, and why it is made so. It is begun with the buffer that the processor holds, and with what it
//! owes from before; where it has ended the processor holds what that held, and owes what is left. The buffer may be full
//! then, or none: the next poll sees to it that a store has room.

ghost use Rattle.std.specs.Prelude.{◌≡◌, ◌*◌, ◌^◌, ◌≤◌, true};
ghost use Rattle.gh_assist.specs.Listing as assists;
ghost use Rattle.gh_assist.specs.Listing.{opening};
ghost use Rattle.gh_assist.specs.Sound.{SoundAssisting};
ghost use Rattle.gh_base.specs.Machines.{Runs};
ghost use Rattle.gh_poll.specs.Local.{with_payment};
ghost use Rattle.gh_poll.specs.PollSound.{SoundPolling};

use crate::poll::Poll;
use gh_assist::Assist;
use gh_base::Layout;

impl Poll {
    /// The assist for an object of so many words of its slot.
    pub fn assist(&self, layout: &Layout, slot: u32) -> Assist
        requires sound { SoundPolling layout.now self.now }
        requires slot { 8 * slot ≤ 2 ^ 31 }
        ensures is { result ≡ opening self.now.seat self.now.local.held (8 * slot) self.now.local.owed self.now.local.spent }
        ensures runs { Runs (assists.listing layout.now) result }
    {
        let _ = layout;
        let (held, owed, spent) = (self.local.held, self.local.owed, self.local.spent);
        Assist::new(self.seat, held, 8 * u64::from(slot), owed, spent)
    }

    /// The processor holds what this assist holds, and owes and has drawn what that says.
    pub fn pay(&mut self, layout: &Layout, assist: &Assist)
        requires sound { SoundPolling layout.now self.old }
        requires assists { SoundAssisting layout.now assist.now }
        ensures is { self.new ≡ with_payment self.old assist.now }
        ensures sound { SoundPolling layout.now self.new }
    {
        let _ = layout;
        self.local.held = assist.held();
        self.local.owed = assist.owed;
        self.local.spent = assist.spent;
    }

    /// The words that the processor has ever drawn from the bank, but for those of an assist that is under way.
    #[inline(always)]
    pub fn spent(&self) -> u64
        ensures { result ≡ self.now.local.spent }
    {
        self.local.spent
    }
}
