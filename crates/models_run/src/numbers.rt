// Numbers that look random, the same ones from the same start.

// Where a row of numbers stands, which is never 0.
#[derive(Clone, Copy)]
pub struct Dice(pub u64);

impl Dice {
    // The next number.
    fn roll(&mut self) -> u64 {
        self.0 ^= self.0 << 13;
        self.0 ^= self.0 >> 7;
        self.0 ^= self.0 << 17;
        self.0
    }

    // The next number, taken below a bound; 0 where the bound is 0.
    pub fn below(&mut self, bound: u32) -> u32 {
        let number = self.roll();
        if bound == 0 {
            return 0;
        }
        (number % u64::from(bound)) as u32
    }

    // A place in a list of some length.
    pub fn place_in(&mut self, length: usize) -> usize {
        self.below(u32::try_from(length).unwrap_or(0)) as usize
    }

    // A byte that is not 0.
    pub fn some_byte(&mut self) -> u8 {
        (self.roll() % 255) as u8 + 1
    }
}
