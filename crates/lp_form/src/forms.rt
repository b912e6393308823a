// Forms of which tableaus are made.
ghost use Rattle.std.specs.Prelude.{◌≡◌, ◌<◌, ◌≤◌, ◌+◌, [], get_or};
ghost use Rattle.spec_model.specs.Kept.{AreEntries};
ghost use Rattle.spec_simplex.specs.Form.{IsForm, form_entry, form_lower, form_upper};

use crate::large::LargeForm;
use lp_frac::Frac;
use std::marker::Model;

/// A form within the usual limits: at most 256 rows and 512 structural columns. To contracts it is the form.
#[derive(Drop)]
pub struct Form {
    form: LargeForm,
}

impl Model for Form {
    ghost use Rattle.spec_simplex.specs.Form as forms;

    ghost Value = { forms.Form };

    ghost view = { λ f. f.form };

    ghost invariant = { λ f. forms.IsForm f.form };
}

impl Form {
    /// The form, which is within the usual limits, as one of which tableaus can be made.
    pub fn new(form: LargeForm) -> Form
        requires { IsForm form }
        ensures { result ≡ form }
    {
        Form { form }
    }

    /// The form itself, without the promise of its size.
    pub fn as_large(&self) -> &LargeForm
        ensures value { result.now ≡ self.now }
        ensures kept { IsForm result.now }
    {
        &self.form
    }

    /// How many rows there are.
    pub fn rows(&self) -> u32
        ensures value { result ≡ self.now.rows }
        ensures bound { result ≤ 256 }
        ensures kept { IsForm self.now }
    {
        self.form.rows()
    }

    /// How many structural columns there are.
    pub fn cols(&self) -> u32
        ensures value { result ≡ self.now.cols }
        ensures bound { result ≤ 512 }
    {
        self.form.cols()
    }

    /// The number of the logical column of row `i`.
    pub fn logical(&self, i: u32) -> u32
        requires { i < self.now.rows }
        ensures value { result ≡ self.now.cols + i }
        ensures inside { result < self.now.cols + self.now.rows }
    {
        self.form.logical(i)
    }

    /// The coefficient of structural column `j` in row `i`; 0 where there is no entry.
    pub fn entry(&self, i: u32, j: u32) -> Frac
        requires i_in_range { i < self.now.rows }
        requires j_in_range { j < self.now.cols }
        ensures { result ≡ form_entry self.now i j }
    {
        self.form.entry(i, j)
    }

    /// The entries of structural column `j`: rows, each with its coefficient.
    pub fn entries(&self, j: u32) -> &[(u32, Frac)]
        requires { j < self.now.cols }
        ensures value { result.now ≡ get_or self.now.entries j [] }
        ensures kept { AreEntries self.now.rows result.now }
    {
        self.form.entries(j)
    }

    /// The lower bound of structural or logical column `k`; none where it is absent.
    pub fn lower(&self, k: u32) -> Option<Frac>
        requires { k < self.now.cols + self.now.rows }
        ensures { result ≡ form_lower self.now k }
    {
        self.form.lower(k)
    }

    /// The upper bound of structural or logical column `k`; none where it is absent.
    pub fn upper(&self, k: u32) -> Option<Frac>
        requires { k < self.now.cols + self.now.rows }
        ensures { result ≡ form_upper self.now k }
    {
        self.form.upper(k)
    }

    /// The cost, to be made least, of each structural and then each logical column.
    pub fn costs(&self) -> &[Frac]
        ensures { result.now ≡ self.now.cost }
    {
        self.form.costs()
    }

    /// The lower bounds of all structural and then all logical columns.
    pub fn lowers(&self) -> &[Option<Frac>]
        ensures { result.now ≡ self.now.lower }
    {
        self.form.lowers()
    }

    /// The upper bounds of all structural and then all logical columns.
    pub fn uppers(&self) -> &[Option<Frac>]
        ensures { result.now ≡ self.now.upper }
    {
        self.form.uppers()
    }
}
