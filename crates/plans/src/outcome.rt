// What the bytes of a plan say, beside how they are read.
ghost use Rattle.plans.specs.Outcomes.{OneOutcome};

// The bytes of a plan allow one outcome only: one list of commands that they are accepted with,
// or one number and offset that they are refused with.
pub fn one_outcome()
    ensures { OneOutcome }
{}
