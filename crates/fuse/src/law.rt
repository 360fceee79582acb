ghost use Rattle.fuse.specs.Script.{StepsAreMerging, StepsArePart, MergingIsSteps};

/// The law of merging's script: where the steps end, the acts that they made, with the words that
/// these answered, are a whole merging with their outcome; before, they are a prefix of one; and
/// they can make every whole merging.
pub fn steps_walk_the_script()
    ensures whole { StepsAreMerging }
    ensures part { StepsArePart }
    ensures every { MergingIsSteps }
{}
