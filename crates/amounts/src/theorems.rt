// The theorems, each owed by the contract of a function.
ghost use Rattle.amounts.specs.Accumulation.{RunOrdered, RuleAddsUp, RuleKeepsLength, RuleStaysBelow, RuleSumsFit};
ghost use Rattle.amounts.specs.Promises.{DrainedAcyclic, SomeAmounts, OnlyAmounts, NothingLost, Bounded, RainBounded, Always};
ghost use Rattle.amounts.specs.Row.{RowsReadBack};

// Where water drains, none comes back.
pub fn drained_flow_is_acyclic()
    ensures { DrainedAcyclic }
{}

// Every flow has amounts that add up.
pub fn amounts_exist()
    ensures { SomeAmounts }
{}

// No other amounts add up.
pub fn amounts_are_the_only_ones()
    ensures { OnlyAmounts }
{}

// What leaves the land is what rained on it.
pub fn nothing_is_lost()
    ensures { NothingLost }
{}

// No amount is above all the rain, and that is at most the most rain on a cell, times the cells.
pub fn amounts_are_bounded()
    ensures amounts { Bounded }
    ensures rain { RainBounded }
{}

// Land with a way off it from every cell has levels, a flow and amounts.
pub fn land_has_levels_flow_and_amounts()
    ensures { Always }
{}

// The rule for levels ends with lists of a flow and its order.
pub fn run_has_an_ordered_flow()
    ensures { RunOrdered }
{}

// The rule in the order turned around gives the amounts.
pub fn rule_gives_the_amounts()
    ensures { RuleAddsUp }
{}

// On its way no list changes its length, no amount and no sum comes above all the rain.
pub fn rule_stays_in_bounds()
    ensures length { RuleKeepsLength }
    ensures amounts { RuleStaysBelow }
    ensures sums { RuleSumsFit }
{}

// What is written into a row of a table is what is read from it, and no other row changes.
pub fn rows_read_back()
    ensures { RowsReadBack }
{}
