// Why a text could not be made: as of a row of changes, a refusal or want of memory.
pub use changes::failure::Failure;
