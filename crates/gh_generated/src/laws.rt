//! Laws of the orders of a script's operations. The functions do nothing; what they ensure is proved.

ghost use Rattle.gh_generated.specs.Orders.{GeneratedScriptsLeaveOneHeap, GoroutinesApartLeaveOneHeap};

use gh_script::generated_goroutines_keep_apart;

/// Where each goroutine goes to no global but that of its own number, and there is room for each object,
/// the heap that never frees is the same after every order of all operations: in each field of each
/// object, each global and each register.
pub fn goroutines_apart_leave_one_heap()
    ensures { GoroutinesApartLeaveOneHeap }
{}

/// So it is for the script of each seed and size.
pub fn generated_scripts_leave_one_heap()
    ensures { GeneratedScriptsLeaveOneHeap }
{
    generated_goroutines_keep_apart();
    goroutines_apart_leave_one_heap();
}
