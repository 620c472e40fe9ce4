// The theorems, each owed by the contract of a function.
ghost use Rattle.checker.specs.Theorems.{FirstIsFirst, AcceptedIfRight, DrainedAccepted, DrainedReadsBack};

// A cell that is refused is the first of which a condition does not hold.
pub fn refused_cells_are_the_first()
    ensures { FirstIsFirst }
{}

// A table is accepted if and only if it is right.
pub fn accepted_if_right()
    ensures { AcceptedIfRight }
{}

// The table that draining gives is accepted, for every model.
pub fn drained_tables_are_accepted()
    ensures { DrainedAccepted }
{}

// And it reads back: 20 bytes a cell, which say of each cell what the rule gives.
pub fn drained_tables_read_back()
    ensures { DrainedReadsBack }
{}
