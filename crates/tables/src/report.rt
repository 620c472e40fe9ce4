// What is told of a model.

// Of a drained model its lines, and the bytes of its table.
#[derive(Drop)]
pub struct Report {
    pub text: String,
    pub table: Vec<u8>,
}

// Of a row of changes a line for each, hints at lines of the row that are no change, and the bytes of the changed model and of its table.
#[derive(Drop)]
pub struct RowReport {
    pub text: String,
    pub hints: String,
    pub model: Vec<u8>,
    pub table: Vec<u8>,
}
