//! Laws of what a generated script's run by threads tells. The functions do nothing; what they ensure is proved.

ghost use Rattle.gh_soak.specs.Soak.{OneAfterAnotherIsAnOrder, RunsAreOrders, RunsLeaveTheirHeap, SoaksTellOneHeap, WhatIsLiveIsOne};

use gh_generated::generated_scripts_leave_one_heap;
use gh_plenty::generated_scripts_are_never_full;

/// The operations of all goroutines, one goroutine behind the other, are an order of all operations of the script.
pub fn one_after_another_is_an_order()
    ensures { OneAfterAnotherIsAnOrder }
{}

/// What acts in a whole run of a script is an order of all its operations, whoever stepped when: those of each goroutine
/// are its statements in their order and its end, and beside them there are polls and leaves alone.
pub fn runs_are_orders()
    ensures { RunsAreOrders }
{}

/// Where no operation of a whole run was answered `full`, the heap that never frees behind the run is the one that the
/// operations leave where there is room for each object.
pub fn runs_leave_their_heap()
    ensures { RunsLeaveTheirHeap }
{}

/// In one heap there is one count of what is live, and one sum of its bytes.
pub fn what_is_live_is_one()
    ensures { WhatIsLiveIsOne }
{}

/// What a generated script's run by threads tells as live is what the globals hold where the goroutines run one after the
/// other, in the heap that never frees.
pub fn soaks_tell_one_heap()
    ensures { SoaksTellOneHeap }
{
    one_after_another_is_an_order();
    runs_are_orders();
    runs_leave_their_heap();
    generated_scripts_leave_one_heap();
    generated_scripts_are_never_full();
}
