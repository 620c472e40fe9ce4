// What is proved of every text, every change and every row beyond single calls. Each function owes the theorem that its contract names.
ghost use Rattle.changes.specs.Meaning.{AllowedIfInRange, ChangesReadBack, RefusedChangesNothing, RowsKeepModels, RainChangesNoLevel};
ghost use Rattle.changes.specs.Theorems.{NumbersAreDecimal, WrittenNumbersReadBack, WrittenRowsReadBack};

// A word is a number exactly if it is one digit or more and nothing but digits; the number is what they write, or the largest.
pub fn numbers_are_decimal()
    ensures { NumbersAreDecimal }
{}

// A number that is written out reads back.
pub fn written_numbers_read_back()
    ensures { WrittenNumbersReadBack }
{}

// A row of changes that is written out, one change to a line, reads back.
pub fn written_rows_read_back()
    ensures { WrittenRowsReadBack }
{}

// A change may be made if and only if its cell exists and its value is in range; what is refused changes nothing.
pub fn allowed_changes_are_in_range()
    ensures range { AllowedIfInRange }
    ensures refused { RefusedChangesNothing }
{}

// A change that may be made gives its cell the new value, and changes no other value and no other byte.
pub fn changes_read_back()
    ensures { ChangesReadBack }
{}

// After any number of changes of a row there is a model of the same sizes, and what leaves it is what rains on it.
pub fn rows_keep_models()
    ensures { RowsKeepModels }
{}

// A change of rain changes no level, no flow and no place, and counts no changed level.
pub fn rain_changes_no_level()
    ensures { RainChangesNoLevel }
{}
