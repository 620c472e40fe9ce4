// The theorems, each owed by the contract of a function.
ghost use Rattle.basins.specs.Promises.{OneExit, ExitsAreOutlets, OneBasin, ExitInBasin, FlowStaysInBasin, NoExitNoBasin, ExitAmount, BasinsHaveAllRain, BasinsHaveAllCells, WaysLead};
ghost use Rattle.basins.specs.Walks.{WalkFindsExit, WalkEndsOff, WalkLongEnough, PassFindsExits, PassKeepsLength};

// Every cell's water leaves at exactly one exit, where water may leave.
pub fn water_leaves_at_one_exit()
    ensures one { OneExit }
    ensures outlet { ExitsAreOutlets }
{}

// Basins share no cell and hold all; only exits have any.
pub fn basins_part_the_land()
    ensures one { OneBasin }
    ensures exit { ExitInBasin }
    ensures flow { FlowStaysInBasin }
    ensures no_other { NoExitNoBasin }
{}

// An exit's amount is the rain of its basin.
pub fn exit_amount_is_basin_rain()
    ensures { ExitAmount }
{}

// Basins together have all the rain, and all cells.
pub fn basins_add_up()
    ensures rain { BasinsHaveAllRain }
    ensures cells { BasinsHaveAllCells }
{}

// The way of a cell's water goes over cells next to each other to its exit, and never up.
pub fn ways_lead_down_to_exits()
    ensures { WaysLead }
{}

// A walk over as many cells as there are finds the exit, and on any list a longer one finds no more.
pub fn walks_find_exits()
    ensures exit { WalkFindsExit }
    ensures off { WalkEndsOff }
    ensures long_enough { WalkLongEnough }
{}

// One pass along the order finds all exits.
pub fn pass_finds_all_exits()
    ensures exits { PassFindsExits }
    ensures length { PassKeepsLength }
{}
