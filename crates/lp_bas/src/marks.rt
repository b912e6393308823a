// What was read so far of a file: the statuses that cards gave.
ghost use Rattle.std.specs.Prelude.{◌≡◌, ◌+◌, ◌<◌, IfOk, length};
ghost use Rattle.spec_simplex.specs.Eliminate.{IsBasisOf};
ghost use Rattle.spec_bas.specs.Steps as file;
ghost use Rattle.spec_bas.specs.Fits.{HasSizeOf};
ghost use Rattle.lp_bas.specs.Limits.{status_at};
ghost use Rattle.lp_bas.specs.Steps.{IsStep, Advances};
ghost use Rattle.lp_bas.specs.Single.{single_step, put_step};

use crate::reading::{Card, Reading, reading_of};
use crate::statuses::{Limit, lower_first, status_at, usual_status};
use lp_base::Line;
use lp_form::{Basis, LargeForm, Status};
use lp_model::Model;
use spec_bas::BasCode;
use std::alloc::{AllocError, Global};

/// Why a line leads to nothing.
#[derive(Clone, Copy)]
pub(crate) enum StepFault {
    Wrong(BasCode),
    NoMemory,
}

impl From<AllocError> for StepFault {
    ghost use Rattle.lp_bas.specs.declared.marks.StepFault.TheVariants as stop;

    ghost from_gives = { λ _ fault. fault ≡ stop.NoMemory };

    /// The fault for memory that was refused: `NoMemory`.
    fn from(_: AllocError) -> Self {
        StepFault::NoMemory
    }
}

impl From<BasCode> for StepFault {
    ghost use Rattle.lp_bas.specs.declared.marks.StepFault.TheVariants as stop;

    ghost from_gives = { λ code fault. fault ≡ stop.Wrong code };

    /// The fault of a line that is wrong by this code.
    fn from(code: BasCode) -> Self {
        StepFault::Wrong(code)
    }
}

/// Where a card without a row lets a column stand.
#[derive(Clone, Copy)]
pub(crate) enum Stands {
    AtUpper,
    Usual,
}

/// Whether there was a card, and the status that a card gave each structural and then each logical column.
#[derive(Drop)]
pub(crate) struct Marks {
    begun: bool,
    items: Vec<Option<Status>>,
}

impl std::marker::Model for Marks {
    ghost use Rattle.spec_bas.specs.Steps as steps;

    ghost Value = { steps.State };

    ghost view = { λ m. record { begun = m.begun; marks = m.items.items } };
}

impl Marks {
    /// The state before the first card of a basis file: no column has a status from a card.
    pub fn new(alloc: Global, form: &LargeForm) -> Result<Self, AllocError>
        ensures { IfOk result (λ marks. marks ≡ file.start form.now) }
    {
        let columns = form.cols() + form.rows();
        let items = vec![in alloc; None; columns as usize]?;
        Ok(Marks {
            begun: false,
            items,
        })
    }

    // Whether a card gave column `k` a status.
    fn is_marked(&self, k: u32) -> bool
        requires { k < length self.now.marks }
        ensures { result ≡ file.is_marked self.now k }
    {
        self.items[k as usize].is_some()
    }

    // Notes that a card gave column `k` this status.
    fn mark(&mut self, k: u32, status: Status)
        requires { k < length self.old.marks }
        ensures { self.new ≡ file.mark k status self.old }
    {
        self.begun = true;
        self.items[k as usize] = Some(status);
    }

    // Reads the card `NAME`: notes that a card was read. Where one was read before, it is the fault `Section`, and
    // nothing changes.
    fn name(&mut self) -> Result<(), BasCode>
        ensures { IsStep (file.named_step self.old) self.old self.new result }
    {
        if self.begun {
            return Err(BasCode::Section);
        }
        self.begun = true;
        Ok(())
    }

    // Reads a card of a column and a row: the column is basic, and the row is at this limit, else at the other one,
    // else at 0. An unknown name, or one that an earlier card has, is a fault, and nothing changes.
    #[tactic(auto, unfolding(spec_bas::specs::Steps::pair_step))]
    fn pair(
        &mut self,
        model: &Model,
        form: &LargeForm,
        column: &[u8],
        row: &[u8],
        limit: Limit,
    ) -> Result<(), BasCode>
        requires sizes { HasSizeOf model.now form.now }
        requires all { length self.old.marks ≡ form.now.cols + form.now.rows }
        ensures { IsStep (file.pair_step model.now form.now self.old column.now row.now (status_at limit form.now))
            self.old self.new result }
    {
        let Some(j) = model.col_of(column) else {
            return Err(BasCode::UnknownColumn);
        };
        let Some(i) = model.row_of(row) else {
            return Err(BasCode::UnknownRow);
        };
        let k = form.logical(i);
        if self.is_marked(j) || self.is_marked(k) {
            return Err(BasCode::Repeated);
        }
        self.mark(j, Status::Basic);
        self.mark(k, status_at(limit, form, k));
        Ok(())
    }

    // Reads a card of a column alone: it is at its upper bound, or stands as it does without a card. An unknown name,
    // one that an earlier card has, and an upper bound that the column lacks are faults, and nothing changes.
    fn single(
        &mut self,
        model: &Model,
        form: &LargeForm,
        column: &[u8],
        stands: Stands,
    ) -> Result<(), BasCode>
        requires sizes { HasSizeOf model.now form.now }
        requires all { length self.old.marks ≡ form.now.cols + form.now.rows }
        ensures { IsStep (single_step stands model.now form.now self.old column.now) self.old self.new result }
    {
        let Some(j) = model.col_of(column) else {
            return Err(BasCode::UnknownColumn);
        };
        if self.is_marked(j) {
            return Err(BasCode::Repeated);
        }
        self.put(form, j, stands)
    }

    // Notes for column `j` that it is at its upper bound, or stands as it does without a card, as `stands` says. An
    // upper bound that the column does not have is a fault.
    fn put(&mut self, form: &LargeForm, j: u32, stands: Stands) -> Result<(), BasCode>
        requires all { length self.old.marks ≡ form.now.cols + form.now.rows }
        requires column { j < form.now.cols }
        ensures { IsStep (put_step stands form.now self.old j) self.old self.new result }
    {
        match stands {
            Stands::Usual => {
                self.mark(j, lower_first(form, j));
                Ok(())
            }
            Stands::AtUpper => {
                if form.upper(j).is_none() {
                    return Err(BasCode::NoUpperBound);
                }
                self.mark(j, Status::AtUpper);
                Ok(())
            }
        }
    }

    // Reads a data card: gives a status to its column, and to its row if it names one. A fault changes nothing.
    #[tactic(auto, unfolding(spec_bas::specs::Steps::upper_step, spec_bas::specs::Steps::usual_step))]
    fn card(&mut self, model: &Model, form: &LargeForm, card: &Card) -> Result<(), BasCode>
        requires sizes { HasSizeOf model.now form.now }
        requires all { length self.old.marks ≡ form.now.cols + form.now.rows }
        ensures { IsStep (file.card_step model.now form.now self.old card.now) self.old self.new result }
    {
        match card {
            Card::Xu { column, row } => {
                self.pair(model, form, column.as_slice(), row.as_slice(), Limit::Upper)
            }
            Card::Xl { column, row } => {
                self.pair(model, form, column.as_slice(), row.as_slice(), Limit::Lower)
            }
            Card::Ul { column } => self.single(model, form, column.as_slice(), Stands::AtUpper),
            Card::Ll { column } => self.single(model, form, column.as_slice(), Stands::Usual),
        }
    }

    // The status of column `k`: that of its card, or the one that it has without a card.
    fn status(&self, form: &LargeForm, k: u32) -> Status
        requires all { length self.now.marks ≡ form.now.cols + form.now.rows }
        requires inside { k < form.now.cols + form.now.rows }
        ensures { result ≡ file.status_of form.now self.now k }
    {
        match self.items[k as usize] {
            Some(status) => status,
            None => usual_status(form, k),
        }
    }

    // The basis in which each column has the status of its card, or the one that it has without a card.
    #[tactic(auto, unfolding(spec_bas::specs::Steps::marked_basis))]
    fn basis(&self, alloc: Global, form: &LargeForm) -> Result<Basis, AllocError>
        requires all { length self.now.marks ≡ form.now.cols + form.now.rows }
        requires fits { IsBasisOf form.now (file.marked_basis form.now self.now) }
        ensures { IfOk result (λ basis. basis ≡ file.marked_basis form.now self.now) }
    {
        let mut items = Vec::new(alloc);
        for k in 0..form.cols() + form.rows() {
            items.push(self.status(form, k))?;
        }
        Ok(Basis::from_vec(items, form.rows()))
    }

    /// Reads a line and notes the statuses that its card gives. Gives the basis where the line ends the file, else
    /// none. A wrong line, or memory that is refused, is an error, and changes nothing.
    #[tactic(auto, unfolding(spec_bas::specs::Steps::step))]
    pub fn take(
        &mut self,
        alloc: Global,
        model: &Model,
        form: &LargeForm,
        line: &Line,
    ) -> Result<Option<Basis>, StepFault>
        requires sizes { HasSizeOf model.now form.now }
        requires all { length self.old.marks ≡ form.now.cols + form.now.rows }
        requires fits { IsBasisOf form.now (file.marked_basis form.now self.old) }
        ensures { Advances (file.step model.now form.now self.old line.now) self.old self.new result }
    {
        match reading_of(alloc, line)? {
            Reading::Skipped => Ok(None),
            Reading::Named => {
                self.name()?;
                Ok(None)
            }
            Reading::Ends => Ok(Some(self.basis(alloc, form)?)),
            Reading::Says(card) => {
                let marked = self.card(model, form, &card);
                drop(card);
                marked?;
                Ok(None)
            }
            Reading::Wrong(code) => Err(StepFault::Wrong(code)),
        }
    }
}
