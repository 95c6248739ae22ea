//! The laws of order: which lists of events are joint runs, in which other orders they are, which order
//! their stamps give, and how what threads and objects recorded apart becomes one run. Nothing here runs.
#![tactic(auto)]

ghost use Rattle.tm_order.specs.Cuts.{ClosedCutsKeepPredecessors, CutsAreOfEvents};
ghost use Rattle.tm_order.specs.LegalEvents.{BrokenOrdersAreIllegal, LegalEventsRun};
ghost use Rattle.tm_order.specs.LinearExtensions.{JointRunsRearrange, PredecessorsAreEnough};
ghost use Rattle.tm_order.specs.PlacesApart.{PlacesAreApart};
ghost use Rattle.tm_order.specs.Ready.{AllEventsAreShown, SoonestFirstSorts};
ghost use Rattle.tm_order.specs.RecordedRuns.{RecordsShowARun};
ghost use Rattle.tm_order.specs.StampOrder.{StampsOrderEvents, StampsOrderJointRuns};
ghost use Rattle.tm_order.specs.Views.{MadeEventsAreRecorded, ViewsAreClocked};
ghost use Rattle.tm_order.specs.Interleavings.{JointRunsAreInterleavings, JointRunsLeaveOneState};

/// A list of events is a joint run exactly where it interleaves what threads do as objects allow: in the
/// list's order each thread's events are what that thread may do one after another, each object's are a
/// legal history of it, and the stamps are Lamport's clocks. Nothing else ties threads and objects.
pub fn joint_runs_are_interleavings()
    ensures { JointRunsAreInterleavings }
{}

/// A joint run leaves one joint state.
pub fn joint_runs_leave_one_state()
    ensures { JointRunsLeaveOneState }
{}

/// The events of a joint run in another order are a joint run exactly where each stands after its
/// direct predecessors, and then it leaves the same joint state.
pub fn joint_runs_rearrange()
    ensures { JointRunsRearrange }
{}

/// An order of some events in which each stands after its direct predecessors is a linear extension of
/// happened-before, and the other way round.
pub fn predecessors_are_enough()
    ensures { PredecessorsAreEnough }
{}

/// In a cut that is closed under happened-before each event stands after its direct predecessors.
pub fn closed_cuts_keep_predecessors()
    ensures { ClosedCutsKeepPredecessors }
{}

/// Which cuts are closed in some events doesn't depend on the order of these.
pub fn cuts_are_of_events()
    ensures { CutsAreOfEvents }
{}

/// No two events of a well placed list share a place in their thread, or at their object.
pub fn places_are_apart()
    ensures { PlacesAreApart }
{}

/// In a well placed list of events whose stamps rise from each direct predecessor, no event happened
/// before itself, and the events have exactly one order by rising stamp and then thread number, in
/// which each stands after all that happened before it.
pub fn stamps_order_events()
    ensures { StampsOrderEvents }
{}

/// The events of a joint run by rising stamp and then thread number are a joint run, which leaves the
/// same joint state.
pub fn stamps_order_joint_runs()
    ensures { StampsOrderJointRuns }
{}

/// Well placed events whose stamps rise from direct predecessors are all shown once none of those held
/// back is ready, which an event is once those directly before it are shown.
pub fn all_events_are_shown()
    ensures { AllEventsAreShown }
{}

/// Such events, where each time the soonest of the ready ones by stamp and then thread number was
/// shown, stand in the order by stamp.
pub fn soonest_first_sorts()
    ensures { SoonestFirstSorts }
{}

/// Where some order of the events is a joint run, they are of the exercise's threads and objects and
/// well placed, their stamps rise from direct predecessors, and each order that keeps direct
/// predecessors is a joint run, as is the order by stamp; all of these leave one joint state.
pub fn legal_events_run()
    ensures { LegalEventsRun }
{}

/// Where an order of the events that keeps direct predecessors is a joint run only up to an event that
/// is no joint step then, no order of the events is a joint run.
pub fn broken_orders_are_illegal()
    ensures { BrokenOrdersAreIllegal }
{}

/// From many histories to one run: where each thread's events are a run of that thread, each object's
/// are a legal history of it and the stamps are Lamport's clocks, then all of them, shown so that each
/// stands after its direct predecessors until none is ready, are one joint run, and none is left out.
pub fn records_show_a_run()
    ensures { RecordsShowARun }
{}

/// Where each thread stamps its events by the last event that it had made and the last that it had seen
/// at the object, and it had seen a beginning of the object's events with its own among them, the
/// stamps are Lamport's clocks.
pub fn views_are_clocked()
    ensures { ViewsAreClocked }
{}

/// Where of each thread and object the thread's events on the object are the object's events by the
/// thread, the events that all threads made are those that all objects have.
pub fn made_events_are_recorded()
    ensures { MadeEventsAreRecorded }
{}
