// Worked examples of what propagation leaves.

ghost use Rattle.propagation.specs.Examples.{SettleExamples};

// Does nothing; its contract is that the worked examples hold, by the definitions alone.
pub fn settle_examples()
    ensures { SettleExamples }
{}
