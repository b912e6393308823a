// Bases.
ghost use Rattle.std.specs.Prelude.{◌≡◌, ◌<◌, ◌≤◌, List, length, slice_get, Some};
ghost use Rattle.spec_pivot.specs.declared.status.Status.{Status as status};
ghost use Rattle.spec_simplex.specs.Form.{Form as form};
ghost use Rattle.spec_simplex.specs.Eliminate.{IsBasisOf};
ghost use Rattle.lp_form.specs.Count.{basics};

use spec_pivot::Status;
use std::marker::Model;

/// How each structural and then each logical column of a form stands, of which as many are basic as the form has rows.
pub struct Basis {
    statuses: Vec<Status>,
    rows: u32,
}

impl Model for Basis {
    ghost use Rattle.std.specs.Prelude.{List};
    ghost use Rattle.std.specs.Prelude.{◌≡◌};
    ghost use Rattle.spec_pivot.specs.declared.status.Status.{Status};
    ghost use Rattle.lp_form.specs.Count.{basics};

    ghost Value = { List Status };

    ghost view = { λ b. b.statuses.items };

    ghost invariant = { λ b. basics b.statuses.items ≡ b.rows };
}

impl Drop for Basis {
    // Drops the statuses, and gives their memory back.
    fn drop(self) {
        let Basis { statuses, rows: _ } = self;
        drop(statuses);
    }
}

impl Basis {
    /// The basis with these statuses, of which `rows` are basic.
    pub fn from_vec(statuses: Vec<Status>, rows: u32) -> Self
        requires { basics statuses.items ≡ rows }
        ensures { result ≡ statuses.items }
    {
        Basis { statuses, rows }
    }

    /// How many columns are basic: the number of rows of each form that it is a basis of.
    pub fn rows(&self) -> u32
        ensures count { result ≡ basics self.now }
        ensures bound { result ≤ length self.now }
    {
        self.rows
    }

    /// The statuses of all structural and then all logical columns.
    pub fn as_slice(&self) -> &[Status]
        ensures { result.now ≡ self.now }
    {
        &self.statuses
    }

    /// The status of column `k`, counted from 0.
    pub fn at(&self, k: usize) -> Status
        requires { k < length self.now }
        ensures { slice_get self.now k ≡ Some result }
    {
        self.statuses[k]
    }
}

/// A basis of a form has as many basic columns as the form has rows, whatever the form.
pub fn bases_have_their_rows()
    ensures { (f : form) (basis : List status) → IsBasisOf f basis → basics basis ≡ f.rows }
{}
