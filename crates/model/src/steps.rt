// Steps from a cell to its neighbours.

// So many rows up or down, and so many columns left or right.
#[derive(Clone, Copy)]
pub struct Step {
    pub up: u8,
    pub left: u8,
    pub right: u8,
    pub down: u8,
}

const STAY: Step = Step {
    up: 0,
    left: 0,
    right: 0,
    down: 0,
};

const UP: Step = Step { up: 1, ..STAY };

const LEFT: Step = Step { left: 1, ..STAY };

const RIGHT: Step = Step { right: 1, ..STAY };

const DOWN: Step = Step { down: 1, ..STAY };

// The steps over the four sides of a cell, in the order in which neighbours are always visited.
pub const SIDES: [Step; 4] = [UP, LEFT, RIGHT, DOWN];
