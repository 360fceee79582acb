ghost use Rattle.race_run.specs.NothingLeft.{CleanedIsNothingLeft, NothingIsLeftAtDone, NothingStaysLeft};

/// When a transition on the shared words is done, nothing is left of its granule's former space, at any
/// moment that keeps the rule: where a caller is about to answer that it is done, no caller has the granule
/// changed and not cleaned, no kept walk that could still hit, no access under way and no resident line is
/// by another GPI than the map's, whoever's pass they are with; and so it stays until an act changes
/// the granule again. No call of one pass can say it of another's ring.
pub fn nothing_is_left_at_done()
    ensures done { NothingIsLeftAtDone }
    ensures settled { CleanedIsNothingLeft }
    ensures stays { NothingStaysLeft }
{}
