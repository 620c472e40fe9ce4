// Damaged copies of files.
use crate::numbers::Dice;
use std::alloc::{AllocError, Global};

// Changes one byte, a little or to any other.
fn change_byte(dice: &mut Dice, bytes: &mut [u8]) {
    let at = dice.place_in(bytes.len());
    if let Some(byte) = bytes.get_mut(at) {
        *byte = match dice.below(3) {
            0 => byte.wrapping_add(1),
            1 => byte.wrapping_sub(1),
            _ => *byte ^ dice.some_byte(),
        };
    }
}

// A copy that is cut short, goes on, or has one other byte.
pub fn damaged(heap: Global, dice: &mut Dice, bytes: &[u8]) -> Result<Vec<u8>, AllocError> {
    let mut copy = Vec::from_slice(heap, bytes)?;
    match dice.below(6) {
        0 => copy.truncate(dice.place_in(bytes.len())),
        1 => {
            for _ in 0..=dice.below(20) {
                copy.push(dice.some_byte())?;
            }
        }
        _ => change_byte(dice, &mut copy),
    }
    Ok(copy)
}
