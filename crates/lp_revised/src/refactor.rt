// Taking factors anew.
ghost use Rattle.std.specs.Prelude.{◌≡◌, ◌<◌, ◌+◌, Some, All, OnOk, IfOk, length, map, nat_le, ◌&&◌};
ghost use Rattle.spec_exact.specs.Narrow.{number_limit};
ghost use Rattle.spec_runs.specs.Cold.{basis_status as basis_status_of};
ghost use Rattle.spec_simplex.specs.Tableau.{is_basic as is_basic_of};
ghost use Rattle.spec_simplex.specs.Tableau.{all_columns, status_at, form_columns as form_columns_of};
ghost use Rattle.spec_factor.specs.Factors.{factor_run};
ghost use Rattle.spec_factor.specs.Revised.{standing as standing_of, factor_basis, factor_stop, refactor_run};
ghost use Rattle.spec_factor.specs.Revised.{refreshed_run, replacements};
ghost use Rattle.lp_revised.specs.Answer.{AnswersRevised, LeavesRevised};

use crate::choose::factor;
use crate::factors::Factors;
use crate::state::Revised;
use crate::stop::{RevisedStop, Spent};
use lp_form::{Form, Status, StatusList, is_basic};
use lp_frac::Stop;
use std::alloc::{AllocError, Global};

// Factors of a basis. Basic columns that are dependent, which a run never has, count as a spent run.
fn factors_of(alloc: Global, form: &Form, basis: &StatusList) -> Result<Factors, RevisedStop>
    requires { length basis.now ≡ form.now.cols + form.now.rows }
    ensures run { AnswersRevised (factor_stop (factor_run (Some number_limit) form.now basis.now)) result }
    ensures all { IfOk result (λ s. length s.basic ≡ form.now.rows) }
    ensures inside { IfOk result (λ s. All (λ k. k < form.now.cols + form.now.rows) s.basic) }
{
    match factor(alloc, form, basis) {
        Ok(factors) => Ok(factors),
        Err(Stop::Cause(_)) => Err(Stop::Cause(Spent)),
        Err(Stop::Past(p)) => Err(Stop::Past(p)),
        Err(Stop::NoMemory) => Err(Stop::NoMemory),
    }
}

impl Revised {
    // Whether column `k` is a logical whose row's artificial is basic in its stead.
    fn is_stood_for(&self, k: u32) -> bool
        requires { k < form_columns_of self.now.bare }
        ensures { result ≡ (nat_le self.now.bare.cols k && is_basic_of
            (status_at self.now.bare (k + self.now.bare.rows))) }
    {
        self.cols <= k && is_basic(self.status(k + self.rows))
    }

    // The status of column `k` for the factors, in which a logical counts as basic where its row's artificial is.
    fn basis_status(&self, k: u32) -> Status
        requires { k < form_columns_of self.now.bare }
        ensures { result ≡ basis_status_of self.now.bare k }
    {
        if self.is_stood_for(k) {
            Status::Basic
        } else {
            self.status(k)
        }
    }

    // The column of the run that the factors hold as column `k`: the artificial of the row where that is basic.
    fn standing(&self, k: u32) -> u32
        requires { k < form_columns_of self.now.bare }
        ensures value { result ≡ standing_of self.now.bare k }
        ensures inside { result < all_columns self.now.bare }
    {
        if self.is_stood_for(k) {
            k + self.rows
        } else {
            k
        }
    }

    // The statuses of the form's columns for the factors, with artificials counted as their rows' logicals.
    pub(crate) fn factor_basis(&self, alloc: Global) -> Result<StatusList, AllocError>
        ensures { IfOk result (λ b. b ≡ factor_basis self.now.bare) }
    {
        let mut list = Vec::new(alloc);
        for k in 0..self.form_columns() {
            list.push(self.basis_status(k))?;
        }
        Ok(StatusList::from_vec(list))
    }

    // The basic column of each position, where the positions are the places of these factors.
    fn positions(&self, alloc: Global, factors: &Factors) -> Result<Vec<u32>, AllocError>
        requires all { length factors.now.basic ≡ self.now.bare.rows }
        requires inside { All (λ k. k < form_columns_of self.now.bare) factors.now.basic }
        ensures value { IfOk result (λ b. b.items ≡ map (λ k. standing_of self.now.bare k) factors.now.basic) }
        ensures inside { IfOk result (λ b. All (λ k. k < all_columns self.now.bare) b.items) }
    {
        let mut basic = Vec::new(alloc);
        for place in 0..self.rows() {
            basic.push(self.standing(factors.basic(place)))?;
        }
        Ok(basic)
    }

    // New factors of the state's basic columns. The state stays.
    fn new_factors(&self, alloc: Global, form: &Form) -> Result<Factors, RevisedStop>
        requires rows { form.now.rows ≡ self.now.bare.rows }
        requires cols { form.now.cols ≡ self.now.bare.cols }
        ensures run { AnswersRevised (factor_stop (factor_run (Some number_limit) form.now (factor_basis
            self.now.bare)))
            result }
        ensures all { IfOk result (λ s. length s.basic ≡ self.now.bare.rows) }
        ensures inside { IfOk result (λ s. All (λ k. k < form_columns_of self.now.bare) s.basic) }
    {
        let basis = self.factor_basis(alloc)?;
        factors_of(alloc, form, &basis)
    }

    // Takes factors anew. The basic columns change their positions to the places of the new factors.
    pub(crate) fn refactor(&mut self, alloc: Global, form: &Form) -> Result<(), RevisedStop>
        requires rows { form.now.rows ≡ self.old.bare.rows }
        requires cols { form.now.cols ≡ self.old.bare.cols }
        ensures run { LeavesRevised (refactor_run (Some number_limit) form.now self.old.bare) self.new result }
        ensures rows { self.new.bare.rows ≡ self.old.bare.rows }
        ensures cols { self.new.bare.cols ≡ self.old.bare.cols }
        ensures fresh { OnOk result (self.new.replaced ≡ 0) }
    {
        let factors = self.new_factors(alloc, form)?;
        let basic = self.positions(alloc, &factors)?;
        self.basic = basic;
        self.factors = factors;
        self.replaced = 0;
        Ok(())
    }

    // Takes factors anew after 64 replacements; before that nothing changes.
    #[tactic(auto, unfolding(spec_factor::specs::Revised::refreshed_run))]
    pub(crate) fn refresh(&mut self, alloc: Global, form: &Form) -> Result<(), RevisedStop>
        requires rows { form.now.rows ≡ self.old.bare.rows }
        requires cols { form.now.cols ≡ self.old.bare.cols }
        ensures run { LeavesRevised (refreshed_run (Some number_limit) form.now self.old) self.new result }
        ensures rows { self.new.bare.rows ≡ self.old.bare.rows }
        ensures cols { self.new.bare.cols ≡ self.old.bare.cols }
        ensures fresh { OnOk result (self.new.replaced < replacements) }
    {
        if self.replaced == 64 {
            self.refactor(alloc, form)
        } else {
            Ok(())
        }
    }
}
