// The slices that a caller lends.
ghost use Rattle.std.specs.Prelude.{◌≡◌, length, Ok, Err, if◌then◌else◌, nat_le};

// The four slices that draining writes: an entry for each cell in levels, flow and amounts, three in the work.
// They are slices of plain words side by side, and not one of rows, because C lends them so. A function that is lent them also says that
// they stay the same slices: no invariant of a type can speak of before and after.
#[derive(Drop)]
pub struct Slices<'a> {
    pub levels: &'a mut [u32],
    pub flow: &'a mut [u32],
    pub amounts: &'a mut [u64],
    pub work: &'a mut [u64],
}

// Refuses a slice with fewer entries than are needed by the error that names it.
pub fn long_enough<T, E: Copy>(slice: &[T], needed: usize, short: E) -> Result<(), E>
    ensures { result ≡ (if nat_le needed (length slice.now) then Ok tt else Err short) }
{
    if slice.len() < needed {
        return Err(short);
    }
    Ok(())
}
