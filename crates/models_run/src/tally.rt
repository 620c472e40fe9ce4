// What was compared.
use crate::faults::{reported, told};
use model::refusal::Refusal;
use std::alloc::{AllocError, Global};
use std::collections::{BTreeMap, BTreeSet};
use std::fmt;

// A sort of comparison.
#[derive(Clone, Copy, PartialEq, Eq, PartialOrd, Ord, Debug)]
pub enum Comparison {
    Ways,
    Floods,
    Rule,
    Sums,
    Tables,
    ShortSlices,
    DamagedModels,
    DamagedTables,
    Rows,
}

impl fmt::Display for Comparison {
    fn fmt<W: fmt::Write>(&self, f: &mut fmt::Formatter<W>) -> fmt::Result {
        f.write_str(match self {
            Comparison::Ways => "levels by all ways off the land",
            Comparison::Floods => "levels by floods at every height",
            Comparison::Rule => "levels, flow, places, amounts by the rule",
            Comparison::Sums => "sums of rain and of what leaves",
            Comparison::Tables => "tables accepted",
            Comparison::ShortSlices => "slices cut short",
            Comparison::DamagedModels => "damaged models",
            Comparison::DamagedTables => "damaged tables",
            Comparison::Rows => "rows of changes",
        })
    }
}

// How many comparisons agree and how many differ.
#[derive(Clone, Copy, Default)]
pub struct Tally {
    agree: u32,
    differ: u32,
}

impl Tally {
    // One comparison more.
    fn note(&mut self, agrees: bool) {
        let count = if agrees {
            &mut self.agree
        } else {
            &mut self.differ
        };
        *count = count.saturating_add(1);
    }
}

impl fmt::Display for Tally {
    fn fmt<W: fmt::Write>(&self, f: &mut fmt::Formatter<W>) -> fmt::Result {
        let agree = self.agree;
        let differ = self.differ;
        write!(f, "{agree} agree, {differ} differ")
    }
}

// A tally for each sort of comparison, and the answers that were expected in each: a refusal by its number, or none.
#[derive(Drop)]
pub struct Tallies {
    pub counts: BTreeMap<Comparison, Tally>,
    expected: BTreeSet<(Comparison, Option<u32>)>,
}

impl Tallies {
    pub fn new(heap: Global) -> Tallies {
        Tallies {
            counts: BTreeMap::new(heap),
            expected: BTreeSet::new(heap),
        }
    }

    // One comparison more.
    pub fn note(&mut self, comparison: Comparison, agrees: bool) -> Result<(), AllocError> {
        self.counts.entry(comparison)?.or_default().note(agrees);
        Ok(())
    }

    // A comparison of each entry found with the one expected; lists of different lengths differ once.
    pub fn note_all<T: PartialEq>(
        &mut self,
        comparison: Comparison,
        found: &[T],
        expected: &[T],
    ) -> Result<(), AllocError> {
        if found.len() != expected.len() {
            return self.note(comparison, false);
        }
        for (found, expected) in found.iter().zip(expected) {
            self.note(comparison, found == expected)?;
        }
        Ok(())
    }

    // A comparison of the refusal found, if there is one, with the one expected, by what is reported of them.
    pub fn note_refusal(
        &mut self,
        comparison: Comparison,
        found: Option<Refusal>,
        expected: Option<Refusal>,
    ) -> Result<(), AllocError> {
        let found = found.map(told);
        let expected = expected.map(reported);
        let number = expected.map(|(number, _)| number);
        self.expected.insert((comparison, number))?;
        self.note(comparison, found == expected)
    }

    // Whether no comparison differs.
    pub fn all_agree(&self) -> bool {
        self.counts.values().all(|tally| tally.differ == 0)
    }

    // Whether each refusal was expected at least once, and none too. By the numbers that are reported, since a place may be any: a
    // pattern for each refusal is no plainer.
    pub fn expected_every_refusal(&self) -> bool {
        let models = [None, Some(1), Some(2), Some(3)];
        let tables = [None, Some(6), Some(7), Some(8), Some(9)];
        self.expected_all(Comparison::DamagedModels, &models)
            && self.expected_all(Comparison::ShortSlices, &[None, Some(4)])
            && self.expected_all(Comparison::DamagedTables, &tables)
    }

    // Whether each of some answers was expected at least once.
    fn expected_all(&self, comparison: Comparison, numbers: &[Option<u32>]) -> bool {
        let mut answers = numbers.iter().map(|number| (comparison, *number));
        answers.all(|answer| self.expected.contains(&answer))
    }
}
