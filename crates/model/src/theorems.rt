// What is proved of every grid and every model beyond single calls. Each function owes the theorem that its contract names.
ghost use Rattle.model.specs.Edits.{HeightsReadBack, RainsReadBack, MarksReadBack};
ghost use Rattle.model.specs.Theorems.{NumbersAndPositions, NeighboursShareASide, AdjacentBothWays, EveryCellHasAWay};
ghost use Rattle.model.specs.WellFormed.{TakenIfWellFormed};

// A file is taken if and only if it is well formed.
pub fn taken_if_well_formed()
    ensures { TakenIfWellFormed }
{}

// Cell numbers, rows and columns are each other's inverse.
pub fn numbers_and_positions()
    ensures { NumbersAndPositions }
{}

// The neighbours of a cell are exactly the cells that share a side with it, and that goes both ways.
pub fn neighbours_share_a_side()
    ensures sides { NeighboursShareASide }
    ensures both_ways { AdjacentBothWays }
{}

// Every cell of every model has a way off the land.
pub fn every_cell_has_a_way()
    ensures { EveryCellHasAWay }
{}

// A write into a well-formed file reads back, and leaves every other value and byte.
pub fn writes_read_back()
    ensures heights { HeightsReadBack }
    ensures rains { RainsReadBack }
    ensures marks { MarksReadBack }
{}
