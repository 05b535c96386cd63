// Worked examples, proved of the definitions that the contracts use.
#![tactic(auto)]

ghost use Rattle.worked.specs.Examples.{Examples};

// Does nothing. Its promise is that the worked examples hold.
pub fn worked_examples()
    ensures { Examples }
{}

#[cfg(test)]
mod plan_tests;
#[cfg(test)]
mod tests;
