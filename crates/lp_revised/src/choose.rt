// Factoring the basic columns of a basis, one by one in the order of their numbers.
ghost use Rattle.std.specs.Prelude.{◌≡◌, ◌≢◌, ◌+◌, ◌<◌, ◌≤◌, Some, None, [], length, get_or};
ghost use Rattle.std.specs.Prelude.{replicate, IfOk, IfSome, OnOk, map, unwrap_or, slice_set};
ghost use Rattle.spec_exact.specs.Fraction.{0ℚ};
ghost use Rattle.spec_exact.specs.Narrow.{number_limit};
ghost use Rattle.spec_factor.specs.Factors.{ftran_run, column_of as column_by, is_open as is_open_of};
ghost use Rattle.spec_factor.specs.Factors.{open_place as open_place_of, with_pair, choose_run, factor_run};
ghost use Rattle.lp_revised.specs.FactorAnswer.{GivesRun, Chooses, MakesFactors};
ghost use Rattle.lp_revised.specs.Chosen.{AreChosen};

use crate::eta::Eta;
use crate::factors::Factors;
use crate::solve::forward_all;
use lp_form::{BasisStop, Form, Singular, StatusList, is_basic};
use lp_frac::{Fracs, Past, Stop, is_zero, neg, one, zeros};
use std::alloc::{AllocError, Global};
use std::marker::Model;

// Factors in the making: the pairs so far, and the column of each place that has one.
#[derive(Drop)]
struct Chosen {
    etas: Vec<Eta>,
    columns: Vec<Option<u32>>,
}

impl Model for Chosen {
    ghost use Rattle.spec_factor.specs.Factors as factoring;
    ghost use Rattle.lp_revised.specs.Chosen.{AreChosen};

    ghost Value = { factoring.Chosen };

    ghost view = { λ s. record { pairs = s.etas.items; columns = s.columns.items } };

    ghost invariant = { λ s. AreChosen (record { pairs = s.etas.items; columns = s.columns.items }) };
}

// Writes the negatives of structural column `k`'s coefficients into their rows of `column`, which is 0 everywhere.
fn put_negatives(form: &Form, k: u32, column: &mut Fracs)
    requires structural { k < form.now.cols }
    requires zeros { column.old ≡ replicate form.now.rows 0ℚ }
    ensures { column.new ≡ column_by form.now k }
{
    for (row, value) in form.entries(k) {
        column.set(*row as usize, neg(*value));
    }
}

// Writes 1 into the row of logical column `k` of `column`, which is 0 everywhere. For a column behind the logical ones
// nothing is written.
fn put_one(form: &Form, k: u32, column: &mut Fracs)
    requires not_structural { form.now.cols ≤ k }
    requires zeros { column.old ≡ replicate form.now.rows 0ℚ }
    ensures { column.new ≡ column_by form.now k }
{
    let row = k - form.cols();
    if row < form.rows() {
        column.set(row as usize, one());
    }
}

// Column `k` of the form's equations, by rows: its coefficients' negatives where it is structural, 1 in its row where
// it is logical. A column behind these is 0 everywhere.
pub(crate) fn column_of(alloc: Global, form: &Form, k: u32) -> Result<Fracs, AllocError>
    ensures value { IfOk result (λ c. c ≡ column_by form.now k) }
    ensures all { IfOk result (λ c. length c ≡ form.now.rows) }
{
    let mut column = zeros(alloc, form.rows() as usize)?;
    if k < form.cols() {
        put_negatives(form, k, &mut column);
    } else {
        put_one(form, k, &mut column);
    }
    Ok(column)
}

// Whether place `i` has no column yet, and `v` is not 0 there.
fn is_open(columns: &[Option<u32>], v: &Fracs, i: usize) -> bool
    requires inside { i < length columns.now }
    requires all { length v.now ≡ length columns.now }
    ensures { result ≡ is_open_of columns.now v.now i }
{
    match columns[i] {
        Some(_) => false,
        None => !is_zero(v.at(i)),
    }
}

// The least place without a column at which `v` is not 0; none if there is none.
fn open_place(columns: &[Option<u32>], v: &Fracs) -> Option<u32>
    requires few { length columns.now ≤ 256 }
    requires all { length v.now ≡ length columns.now }
    ensures value { result ≡ open_place_of columns.now v.now (length columns.now) }
    ensures open { IfSome result (λ p. (p < length columns.now) × (get_or v.now p 0ℚ ≢ 0ℚ)) }
{
    for i in 0..columns.len() {
        if is_open(columns, v, i) {
            return Some(i as u32);
        }
    }
    None
}

impl Chosen {
    // No pairs yet, and `rows` places without a column.
    fn none(alloc: Global, rows: u32) -> Result<Chosen, AllocError>
        requires { rows ≤ 256 }
        ensures { IfOk result (λ s. s ≡ record { pairs = []; columns = replicate rows None }) }
    {
        let columns = Vec::from_elem(alloc, None, rows as usize)?;
        Ok(Chosen {
            etas: Vec::new(alloc),
            columns,
        })
    }

    // Gives the place to column `k`, whose solution by places is `v`, and adds the eta pair of the place and `v`.
    fn put(&mut self, alloc: Global, place: u32, k: u32, v: &Fracs) -> Result<(), AllocError>
        requires inside { place < length self.old.columns }
        requires all { length v.now ≡ length self.old.columns }
        requires not_zero { get_or v.now place 0ℚ ≢ 0ℚ }
        ensures ok { OnOk result (self.new ≡ record {
          pairs = with_pair self.old.pairs place v.now;
          columns = slice_set self.old.columns place (Some k);
        }) }
        ensures all { length self.new.columns ≡ length self.old.columns }
    {
        let _places = self.columns.len();
        let eta = Eta::from_list(alloc, place, v)?;
        if let Err(e) = self.etas.push(eta) {
            return Err(AllocError::from(e));
        }
        self.columns[place as usize] = Some(k);
        Ok(())
    }

    // Solves over the pairs so far: `v`, by rows, becomes the solution by places. After a refusal `v` may hold any
    // numbers.
    fn ftran(&self, v: &mut Fracs) -> Result<(), Past>
        requires { length v.old ≡ length self.now.columns }
        ensures run { GivesRun (ftran_run (Some number_limit) (length v.old) self.now.pairs v.old) v.new result }
        ensures all { length v.new ≡ length v.old }
    {
        forward_all(&self.etas, v)
    }

    // The least place that has no column yet and at which `v` is not 0; none if there is none.
    fn open_place(&self, v: &Fracs) -> Option<u32>
        requires { length v.now ≡ length self.now.columns }
        ensures value { result ≡ open_place_of self.now.columns v.now (length self.now.columns) }
        ensures open { IfSome result (λ p. (p < length self.now.columns) × (get_or v.now p 0ℚ ≢ 0ℚ)) }
    {
        open_place(&self.columns, v)
    }

    // Gives column `k` the least place that is free and at which its solution is not 0. Where there is none the columns
    // depend on each other: `Singular`.
    fn choose(&mut self, alloc: Global, form: &Form, k: u32) -> Result<(), BasisStop>
        requires column { k < form.now.cols + form.now.rows }
        requires all { length self.old.columns ≡ form.now.rows }
        ensures run { Chooses (choose_run (Some number_limit) form.now k self.old) self.new result }
        ensures all { length self.new.columns ≡ length self.old.columns }
    {
        let mut v = column_of(alloc, form, k)?;
        self.ftran(&mut v)?;
        match self.open_place(&v) {
            Some(place) => {
                self.put(alloc, place, k, &v)?;
                Ok(())
            }
            None => Err(Stop::Cause(Singular)),
        }
    }
}

// The column of each place, 0 where a place has none.
fn basic_of(alloc: Global, columns: &[Option<u32>]) -> Result<Vec<u32>, AllocError>
    ensures { IfOk result (λ b. b.items ≡ map (λ o. unwrap_or o 0) columns.now) }
{
    let mut basic = Vec::new(alloc);
    for column in columns {
        basic.push(column.unwrap_or(0))?;
    }
    Ok(basic)
}

// Factors of the columns that are basic by `basis`, the statuses of the form's structural and logical columns.
// `Singular` where they depend on each other.
pub(crate) fn factor(alloc: Global, form: &Form, basis: &StatusList) -> Result<Factors, BasisStop>
    requires { length basis.now ≡ form.now.cols + form.now.rows }
    ensures run { MakesFactors (factor_run (Some number_limit) form.now basis.now) result }
    ensures all { IfOk result (λ s. length s.basic ≡ form.now.rows) }
{
    let mut chosen = Chosen::none(alloc, form.rows())?;
    for k in 0..form.cols() + form.rows() {
        if is_basic(basis.at(k as usize)) {
            chosen.choose(alloc, form, k)?;
        }
    }
    let basic = basic_of(alloc, &chosen.columns)?;
    Ok(Factors::from_parts(chosen.etas, basic))
}
