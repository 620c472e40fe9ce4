// Small models worked out by hand, as theorems: each is owed by the contract of a function.
#![tactic(auto)]

ghost use Rattle.worked.specs.Promises.{WorkedModels, SpillPrints};

// The worked models come out as they were worked out: levels, the lowest there are, flow and amounts.
pub fn worked_models_are_as_worked_out()
    ensures { WorkedModels }
{}

// Of the example with a hollow whose rim has a gap exactly three lines are printed.
pub fn spill_example_prints_three_lines()
    ensures { SpillPrints }
{}
