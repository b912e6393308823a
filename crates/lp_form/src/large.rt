// Forms of any size, and their readers.
ghost use Rattle.std.specs.Prelude.{◌≡◌, ◌<◌, ◌≤◌, ◌+◌, [], get_or};
ghost use Rattle.spec_model.specs.Model.{entry_of};
ghost use Rattle.spec_model.specs.Kept.{AreEntries, large_limits};
ghost use Rattle.spec_simplex.specs.Form.{IsFormWithin, form_entry, form_lower, form_upper};

use crate::lists::{BoundList, Columns};
use lp_frac::{Frac, Fracs, zero};
use std::marker::Model;

/// The form of a linear program: the relation `s_i = sum of a_ij x_j` for each row i, bounds of the
/// structural columns x_j and of the logical columns s_i, and costs to be made least.
///
/// Column j below `cols` is structural, column `cols + i` is the logical of row i. There are at most
/// 65,536 rows and 131,072 structural columns.
pub struct LargeForm {
    rows: u32,
    cols: u32,
    entries: Columns,
    lower: BoundList,
    upper: BoundList,
    cost: Fracs,
}

impl Model for LargeForm {
    ghost use Rattle.spec_simplex.specs.Form as forms;
    ghost use Rattle.spec_model.specs.Kept.{large_limits};

    ghost Value = { forms.Form };

    ghost view = { λ f. record {
      rows = f.rows;
      cols = f.cols;
      entries = f.entries;
      lower = f.lower;
      upper = f.upper;
      cost = f.cost;
    } };

    ghost invariant = { λ f. forms.IsFormWithin large_limits (record {
      rows = f.rows;
      cols = f.cols;
      entries = f.entries;
      lower = f.lower;
      upper = f.upper;
      cost = f.cost;
    }) };
}

impl Drop for LargeForm {
    // Drops the lists of the form, and gives their memory back.
    fn drop(self) {
        let LargeForm {
            rows: _,
            cols: _,
            entries,
            lower,
            upper,
            cost,
        } = self;
        drop(entries);
        drop(lower);
        drop(upper);
        drop(cost);
    }
}

impl LargeForm {
    /// The form of these parts: the entries of each structural column, then the bounds and the cost
    /// of each structural and each logical column.
    pub fn new(
        rows: u32,
        cols: u32,
        entries: Columns,
        lower: BoundList,
        upper: BoundList,
        cost: Fracs,
    ) -> LargeForm
        requires { IsFormWithin large_limits (record {
          rows = rows;
          cols = cols;
          entries = entries;
          lower = lower;
          upper = upper;
          cost = cost;
        }) }
        ensures value { result ≡ record {
          rows = rows;
          cols = cols;
          entries = entries;
          lower = lower;
          upper = upper;
          cost = cost;
        } }
        ensures kept { IsFormWithin large_limits result }
    {
        LargeForm {
            rows,
            cols,
            entries,
            lower,
            upper,
            cost,
        }
    }

    /// How many rows there are.
    pub fn rows(&self) -> u32
        ensures value { result ≡ self.now.rows }
        ensures bound { result ≤ 65536 }
        ensures kept { IsFormWithin large_limits self.now }
    {
        self.rows
    }

    /// How many structural columns there are.
    pub fn cols(&self) -> u32
        ensures value { result ≡ self.now.cols }
        ensures bound { result ≤ 131072 }
    {
        self.cols
    }

    /// The number of the logical column of row `i`.
    pub fn logical(&self, i: u32) -> u32
        requires { i < self.now.rows }
        ensures value { result ≡ self.now.cols + i }
        ensures inside { result < self.now.cols + self.now.rows }
    {
        self.cols + i
    }

    /// The coefficient of structural column `j` in row `i`; 0 where there is no entry.
    #[tactic(auto, using(std::proofs::lemmas::Option::get_or_from_slice_get))]
    pub fn entry(&self, i: u32, j: u32) -> Frac
        requires i_in_range { i < self.now.rows }
        requires j_in_range { j < self.now.cols }
        ensures { result ≡ form_entry self.now i j }
    {
        entry_at(self.entries.get(j as usize).as_slice(), i)
    }

    /// The entries of structural column `j`: rows, each with its coefficient.
    #[tactic(auto, using(std::proofs::lemmas::Option::get_or_from_slice_get))]
    pub fn entries(&self, j: u32) -> &[(u32, Frac)]
        requires { j < self.now.cols }
        ensures value { result.now ≡ get_or self.now.entries j [] }
        ensures kept { AreEntries self.now.rows result.now }
    {
        self.entries.get(j as usize).as_slice()
    }

    /// The lower bound of structural or logical column `k`; none where it is absent.
    #[tactic(auto, using(std::proofs::lemmas::Option::get_or_from_slice_get))]
    pub fn lower(&self, k: u32) -> Option<Frac>
        requires { k < self.now.cols + self.now.rows }
        ensures { result ≡ form_lower self.now k }
    {
        self.lower.at(k as usize)
    }

    /// The upper bound of structural or logical column `k`; none where it is absent.
    #[tactic(auto, using(std::proofs::lemmas::Option::get_or_from_slice_get))]
    pub fn upper(&self, k: u32) -> Option<Frac>
        requires { k < self.now.cols + self.now.rows }
        ensures { result ≡ form_upper self.now k }
    {
        self.upper.at(k as usize)
    }

    /// The cost, to be made least, of each structural and then each logical column.
    pub fn costs(&self) -> &[Frac]
        ensures { result.now ≡ self.now.cost }
    {
        self.cost.as_slice()
    }

    /// The lower bounds of all structural and then all logical columns.
    pub fn lowers(&self) -> &[Option<Frac>]
        ensures { result.now ≡ self.now.lower }
    {
        self.lower.as_slice()
    }

    /// The upper bounds of all structural and then all logical columns.
    pub fn uppers(&self) -> &[Option<Frac>]
        ensures { result.now ≡ self.now.upper }
    {
        self.upper.as_slice()
    }
}

// The coefficient that a column's entries give row `i`; 0 where the row has no entry.
fn entry_at(entries: &[(u32, Frac)], i: u32) -> Frac
    ensures { result ≡ entry_of entries.now i }
{
    for (row, value) in entries {
        if *row == i {
            return *value;
        }
    }
    zero()
}
