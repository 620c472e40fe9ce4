// The first fault of a model file, by the rules of the format.
use crate::land::MOST;
use model::refusal::{Lent, Refusal, Side};

// The number and the place that the formats give a refusal, written again.
pub fn reported(refusal: Refusal) -> (u32, usize) {
    match refusal {
        Refusal::Length(at) => (1, at),
        Refusal::Size(Side::Columns) => (2, 0),
        Refusal::Size(Side::Rows) => (2, 2),
        Refusal::Value(at) => (3, at),
        Refusal::Short(Lent::Levels) => (4, 0),
        Refusal::Short(Lent::Flow) => (4, 1),
        Refusal::Short(Lent::Amounts) => (4, 2),
        Refusal::Short(Lent::Work) => (4, 3),
        Refusal::Change(number) => (5, number),
        Refusal::Table(length) => (6, length),
        Refusal::Level(cell) => (7, cell.0 as usize),
        Refusal::Sends(cell) => (8, cell.0 as usize),
        Refusal::Amount(cell) => (9, cell.0 as usize),
    }
}

// The number and the place by which the library reports a refusal.
pub fn told(refusal: Refusal) -> (u32, usize) {
    (refusal.number(), refusal.place())
}

// A file, and where its next field begins.
#[derive(Clone, Copy)]
struct Fields<'a> {
    bytes: &'a [u8],
    at: usize,
}

impl Fields<'_> {
    // The bytes of the next field, if they are all there.
    fn take<const N: usize>(&mut self) -> Result<[u8; N], Refusal> {
        let rest = self.bytes.get(self.at..).unwrap_or_default();
        let field = rest.first_chunk().ok_or(Refusal::Length(self.bytes.len()))?;
        self.at = self.at.saturating_add(N);
        Ok(*field)
    }

    // Goes on behind a height or a rain.
    fn skip_number(&mut self) -> Result<(), Refusal> {
        let at = self.at;
        if u32::from_le_bytes(self.take()?) > MOST {
            return Err(Refusal::Value(at));
        }
        Ok(())
    }

    // Goes on behind a drain mark.
    fn skip_mark(&mut self) -> Result<(), Refusal> {
        let at = self.at;
        let [mark] = self.take::<1>()?;
        if mark > 1 {
            return Err(Refusal::Value(at));
        }
        Ok(())
    }

    // Goes on behind a cell.
    fn skip_cell(&mut self) -> Result<(), Refusal> {
        self.skip_number()?;
        self.skip_number()?;
        self.skip_mark()
    }
}

// A model has from 1 to 400 columns, and as many rows.
fn check_size(size: u16, side: Side) -> Result<(), Refusal> {
    if (1..=400).contains(&size) {
        Ok(())
    } else {
        Err(Refusal::Size(side))
    }
}

// Whether a file is a model's, or its first fault.
pub fn check_model(bytes: &[u8]) -> Result<(), Refusal> {
    let mut fields = Fields { bytes, at: 0 };
    let columns = u16::from_le_bytes(fields.take()?);
    let rows = u16::from_le_bytes(fields.take()?);
    check_size(columns, Side::Columns)?;
    check_size(rows, Side::Rows)?;
    for _ in 0..u32::from(columns) * u32::from(rows) {
        fields.skip_cell()?;
    }
    if fields.at < bytes.len() {
        return Err(Refusal::Length(fields.at));
    }
    Ok(())
}
