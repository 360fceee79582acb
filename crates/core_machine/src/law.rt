ghost use Rattle.core_machine.specs.InnerLaw.{OneActKeeps};
ghost use Rattle.core_machine.specs.InnerCallerLaws.{ActsHavePlaces, ActsKeepTheirCaller, AgentsGoOn, LocksHaveHolders, WaitsHaveCauses};
ghost use Rattle.core_machine.specs.InnerFits.{ScenesBegin, FreshAreMade, ActsGoOn, ScenesFit};
ghost use Rattle.core_machine.specs.InnerNothingLeft.{DoneIsCleaned, CleanedHasNothingLeft, CleanedStays};

/// The law of the core: whatever act a caller makes next, its place is one of the shared words, the
/// caller can take its answer, and the invariant of the core holds again after it, with the history
/// and the entries that the act makes.
pub fn one_act_keeps()
    ensures { OneActKeeps }
{}

/// What is known of a caller by how it was made alone, whatever its acts are answered: its next act
/// is made on one of the shared words, an act keeps its geometry, its tasks and its number, and an
/// agent has a next act unless each of its tasks is answered.
pub fn callers_keep_to_their_words()
    ensures places { ActsHavePlaces }
    ensures kept { ActsKeepTheirCaller }
    ensures next { AgentsGoOn }
{}

/// Why an agent waits: another caller holds the lock that it is about to take, or its barrier has come
/// to a processor that is between the first and the last act of an access.
pub fn waits_have_causes()
    ensures locks { LocksHaveHolders }
    ensures waits { WaitsHaveCauses }
{}

/// When a transition is done, nothing is left of its granule's former space. Where it is about to
/// answer, no caller has the granule changed and not cleaned; of such a granule no kept walk
/// that could still hit, no access under way and no resident line is by another GPI than the map's;
/// and so it stays until an act changes the granule again.
pub fn nothing_is_left_at_done()
    ensures done { DoneIsCleaned }
    ensures settled { CleanedHasNothingLeft }
    ensures stays { CleanedStays }
{}

/// What the facts of the core say without a schedule, at any moment: callers that have made no act
/// have them with the words before the first act, each act takes its caller one event further in its
/// script, and wherever they hold the answers and the words fit the history.
pub fn scenes_fit_their_history()
    ensures begin { ScenesBegin }
    ensures made { FreshAreMade }
    ensures goes_on { ActsGoOn }
    ensures fits { ScenesFit }
{}
