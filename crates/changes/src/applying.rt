// One change of a model that is drained: its bytes, and what the slices hold of it.
ghost use Rattle.std.specs.Prelude.{◌≡◌, Some};
ghost use Rattle.model.specs.Slices.{lists_of};
ghost use Rattle.changes.specs.Applied.{outcome, answer_to};
ghost use Rattle.changes.specs.Current.{IsDrained, Changes};
ghost use Rattle.changes.specs.declared.asked.Change.TheVariants.{Rain};

use crate::answer::{Answer, Changed};
use crate::asked::Change;
use crate::editing::write_change;
use crate::moving::move_amounts;
use amounts::again::drain_again;
use model::edits::OutOfRange;
use model::grid::Grid;
use model::land::Model;
use model::refusal::Refusal;
use model::slices::Slices;
use model::units::{Amount, Cell};

// A model as it stands while a row changes it: its grid, its bytes, and what leaves it. The lent slices go beside it and not into it: of a
// struct that holds a &mut in another no proof is made. That both agree (`IsDrained`) is asked of each call and is no invariant: it does not
// hold between a write and the drain after it.
#[derive(Drop)]
pub(crate) struct Current<'a> {
    pub(crate) grid: Grid,
    pub(crate) bytes: &'a mut [u8],
    pub(crate) leaves: Amount,
}

impl Current<'_> {
    // Gives a cell another rain, and moves the amounts on its way; nothing is drained again, and no level changes.
    fn change_rain(
        &mut self,
        slices: &mut Slices<'_>,
        cell: Cell,
        rain: Amount,
    ) -> Result<Changed, OutOfRange>
        requires { IsDrained self.old (lists_of slices.old) (lists_of slices.old) }
        ensures outcome { result ≡ outcome self.old.bytes.now (Rain cell rain) }
        ensures after { Changes self.old (Some (Rain cell rain)) self.new slices.old slices.new }
    {
        // By names of their own, since behind a field that is lent as & a proof knows no element.
        let bytes = &mut *self.bytes;
        let old = Model::new(self.grid, bytes).rain_of(cell);
        write_change(self.grid, bytes, Change::Rain(cell, rain))?;
        let model = Model::new(self.grid, bytes);
        let flow = &mut *slices.flow;
        let amounts = &mut *slices.amounts;
        move_amounts(&model, flow, amounts, cell, old, rain);
        self.leaves = Amount(self.leaves.0 + rain.0 - old.0);
        Ok(Changed {
            leaves: self.leaves,
            levels: 0,
        })
    }

    // Makes one change: a rain moves amounts, and after any other the model is drained again. Nothing is written where its cell does not
    // exist or its value is out of range.
    fn apply(&mut self, slices: &mut Slices<'_>, change: Change) -> Result<Changed, OutOfRange>
        requires { IsDrained self.old (lists_of slices.old) (lists_of slices.old) }
        ensures outcome { result ≡ outcome self.old.bytes.now change }
        ensures after { Changes self.old (Some change) self.new slices.old slices.new }
    {
        if let Change::Rain(cell, rain) = change {
            return self.change_rain(slices, cell, rain);
        }
        // By a name of its own, as above.
        let bytes = &mut *self.bytes;
        write_change(self.grid, bytes, change)?;
        let model = Model::new(self.grid, bytes);
        let Ok(again) = drain_again(&model, slices) else {
            unreachable!()
        };
        self.leaves = again.drained.leaves;
        Ok(Changed {
            leaves: self.leaves,
            levels: again.changed,
        })
    }

    // Does what is asked for as number k of a row.
    pub(crate) fn answer(
        &mut self,
        slices: &mut Slices<'_>,
        k: usize,
        change: Option<Change>,
    ) -> Answer
        requires { IsDrained self.old (lists_of slices.old) (lists_of slices.old) }
        ensures answer { result ≡ answer_to k self.old.bytes.now change }
        ensures after { Changes self.old change self.new slices.old slices.new }
    {
        let change = change.ok_or(Refusal::Change(k))?;
        self.apply(slices, change).map_err(|_| Refusal::Change(k))
    }
}
