//! The routine that scans a stack.

ghost use Rattle.std.specs.Prelude.{◌≡◌, ◌↔◌, IsTrue, length, true};
ghost use Rattle.gh_stack.specs.Sound.{SoundStage};
ghost use Rattle.gh_stack.specs.Listing.{given, is_busy, is_waiting, opening, shade_stage_from, told_shaded, wish_of};

use gh_base::limits::REGISTERS;
use gh_base::{Ask, Cell, Layout, Req, Routine, Value};

/// The registers of a goroutine.
pub const REGISTER_COUNT: usize = REGISTERS as usize;

/// The stages of the scan of a stack.
#[derive(Clone, Copy, Debug, PartialEq, Eq)]
pub enum StackStage {
    /// It waits until the reference in a register is shaded.
    Shade {
        /// Which register.
        register: u32,
        /// The reference that it holds.
        reference: u64,
    },
    /// It stores the cycle.
    Store,
    /// It has ended.
    Ended,
}

/// Scans the stack of a goroutine (Go's `scanstack`, mgcmark.go).
///
/// It wishes that each reference in the registers be shaded, one after the other in the order of the
/// registers. Nil and numbers are passed over. Then it stores the cycle in which the stack is scanned, which is
/// its only step.
#[derive(Clone, Copy, Debug, PartialEq, Eq)]
pub struct ScanStack {
    /// The goroutine.
    pub goroutine: u32,
    /// The cycle.
    pub cycle: u64,
    /// The goroutine's registers.
    pub registers: [Value; REGISTER_COUNT],
    /// Its stage.
    pub stage: StackStage,
}

/// What follows from this register on: the first that holds a reference, or the store.
fn stage_from(registers: &[Value], from: u32) -> StackStage
    requires { length registers.now ≡ REGISTERS }
    ensures is { result ≡ shade_stage_from registers.now from }
    ensures fits { SoundStage result }
{
    for register in from..REGISTERS {
        if let Value::Ref(reference) = registers[register as usize] {
            return StackStage::Shade {
                register,
                reference,
            };
        }
    }
    StackStage::Store
}

impl ScanStack {
    /// Scans the stack of this goroutine in this cycle; its registers are these.
    pub fn new(goroutine: u32, cycle: u64, registers: [Value; REGISTER_COUNT]) -> ScanStack
        ensures opening { result ≡ opening goroutine cycle registers }
        ensures whole { length result.registers ≡ REGISTERS }
        ensures fits { SoundStage result.stage }
    {
        ScanStack {
            goroutine,
            cycle,
            registers,
            stage: stage_from(&registers, 0),
        }
    }

    /// The reference that is to be shaded now; `None` where all are.
    pub fn wish(&self) -> Option<u64>
        ensures { result ≡ wish_of self.now.stage }
    {
        match self.stage {
            StackStage::Shade { reference, .. } => Some(reference),
            StackStage::Store | StackStage::Ended => None,
        }
    }

    /// It waits until a reference is shaded.
    pub fn waits(&self) -> bool
        ensures { IsTrue result ↔ (is_waiting self.now.stage ≡ true) }
    {
        matches!(self.stage, StackStage::Shade { .. })
    }

    /// All references are shaded, and its step is next.
    pub fn stores(&self) -> bool
        ensures { IsTrue result ↔ (is_busy self.now.stage ≡ true) }
    {
        matches!(self.stage, StackStage::Store)
    }

    /// Goes on where that is shaded.
    pub fn told_shaded(&mut self)
        requires waits { is_waiting self.old.stage ≡ true }
        requires fits { SoundStage self.old.stage }
        ensures goes { self.new ≡ told_shaded self.old }
        ensures fits { SoundStage self.new.stage }
    {
        if let StackStage::Shade { register, .. } = self.stage {
            self.stage = stage_from(&self.registers, register + 1);
        }
    }

    /// What it has given: nothing where its step is next.
    fn given(&self) -> Option<()>
        ensures { result ≡ given self.now }
    {
        match self.stage {
            StackStage::Store => None,
            StackStage::Shade { .. } | StackStage::Ended => Some(()),
        }
    }
}

impl Routine for ScanStack {
    ghost use Rattle.gh_stack.specs.Listing.{listing};

    type Out = ();

    ghost listing = { listing };

    fn next(&self, layout: &Layout) -> Req {
        match self.stage {
            StackStage::Store => {
                layout.request(Ask::Store(Cell::Scanned(self.goroutine), self.cycle))
            }
            StackStage::Shade { .. } | StackStage::Ended => layout.request(Ask::Load(Cell::Touch)),
        }
    }

    fn take(&mut self, _layout: &Layout, _found: u64) -> Option<()> {
        if let StackStage::Store = self.stage {
            self.stage = StackStage::Ended;
        }
        self.given()
    }
}
