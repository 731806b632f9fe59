// Examples that the definitions meet, computed with the answer itself.
ghost use Rattle.semantics.specs.Examples.{WorkedExamples};

// Solutions, sizes of working sets, refusals and memories over a small graph.
pub fn worked_examples_hold()
    ensures { WorkedExamples }
{}
