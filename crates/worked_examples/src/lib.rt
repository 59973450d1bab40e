// The worked examples of the rules, as theorems about the definitions that the contracts of the code use.
#![tactic(auto)]

ghost use Rattle.worked_examples.specs.Examples.{WorkedExamples};

pub fn worked_examples_stand() -> u8
    ensures { WorkedExamples }
{
    0
}
