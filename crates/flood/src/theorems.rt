// The theorems, each owed by the contract of a function.
ghost use Rattle.flood.specs.Promises.{Above, LevelsExist, OnlyLevels, CertifiedDrains, Rising, DrainMore, Numbering, MirrorLevels, QuarterLevels};
ghost use Rattle.flood.specs.Right.{RunRight, RunGoesOn, NeverLowered, OnlyFlow, ModelsFair, ModelsRight, ModelsFewLooks, RainUnread};

// No level is below the height of its cell.
pub fn levels_reach_heights()
    ensures { Above }
{}

// Where every cell has a way off the land, there are levels and a flow.
pub fn levels_and_flow_exist()
    ensures { LevelsExist }
{}

// A land has no other levels.
pub fn levels_are_the_only_ones()
    ensures { OnlyLevels }
{}

// Conditions on each cell and its neighbours show that the whole flow is right.
pub fn certificate_suffices()
    ensures { CertifiedDrains }
{}

// Land that is raised anywhere has no lower level anywhere.
pub fn higher_land_lowers_no_level()
    ensures { Rising }
{}

// One drain more raises no level.
pub fn one_drain_more_raises_no_level()
    ensures { DrainMore }
{}

// Cells numbered otherwise have the same levels.
pub fn numbering_changes_no_level()
    ensures { Numbering }
{}

// A mirrored model has the same levels, mirrored.
pub fn mirroring_changes_no_level()
    ensures { MirrorLevels }
{}

// A model turned a quarter has the same levels, turned.
pub fn turning_changes_no_level()
    ensures { QuarterLevels }
{}

// The rule gives the lowest levels, a flow off the land and an order, puts each cell into the queue once, and needs few looks.
pub fn run_is_right()
    ensures { RunRight }
{}

// The queue is not empty before every cell has its place.
pub fn run_goes_on_until_all_have_places()
    ensures { RunGoesOn }
{}

// The first level that a cell gets is its last.
pub fn run_lowers_no_level()
    ensures { NeverLowered }
{}

// Flow and order are pinned by what is said of them in words.
pub fn flow_and_order_are_the_only_ones()
    ensures { OnlyFlow }
{}

// Every model within the limits is land with neighbours on which the rule is right.
pub fn models_are_fair()
    ensures { ModelsFair }
{}

// The rule gives every model its levels, flow and order.
pub fn models_are_right()
    ensures { ModelsRight }
{}

// It needs at most forty looks for each cell of a model.
pub fn models_need_few_looks()
    ensures { ModelsFewLooks }
{}

// A change of rain changes no level, flow, place or look.
pub fn rain_changes_nothing_of_the_run()
    ensures { RainUnread }
{}
