// Where columns stand that are not basic.
ghost use Rattle.std.specs.Prelude.{◌≡◌, ◌+◌, ◌<◌};
ghost use Rattle.spec_bas.specs.Steps as steps;
ghost use Rattle.lp_bas.specs.Limits.{status_at};

use lp_form::{LargeForm, Status};

/// The limit of a row at which it is to stand.
#[derive(Clone, Copy)]
pub(crate) enum Limit {
    Lower,
    Upper,
}

/// The status of a nonbasic column `k`: at its lower bound, else at its upper one, else at 0.
pub(crate) fn lower_first(form: &LargeForm, k: u32) -> Status
    requires { k < form.now.cols + form.now.rows }
    ensures { result ≡ steps.lower_first form.now k }
{
    match (form.lower(k), form.upper(k)) {
        (Some(_), _) => Status::AtLower,
        (None, Some(_)) => Status::AtUpper,
        (None, None) => Status::AtZero,
    }
}

/// The status of a nonbasic column `k`: at its upper bound, else at its lower one, else at 0.
pub(crate) fn upper_first(form: &LargeForm, k: u32) -> Status
    requires { k < form.now.cols + form.now.rows }
    ensures { result ≡ steps.upper_first form.now k }
{
    match (form.lower(k), form.upper(k)) {
        (_, Some(_)) => Status::AtUpper,
        (Some(_), None) => Status::AtLower,
        (None, None) => Status::AtZero,
    }
}

/// The status of a nonbasic column `k`: at this limit, else at the other one, else at 0.
pub(crate) fn status_at(limit: Limit, form: &LargeForm, k: u32) -> Status
    requires { k < form.now.cols + form.now.rows }
    ensures { result ≡ status_at limit form.now k }
{
    match limit {
        Limit::Lower => lower_first(form, k),
        Limit::Upper => upper_first(form, k),
    }
}

/// The status of column `k` without a card: a logical column is basic, a structural one at its lower bound, else at its
/// upper one, else at 0.
pub(crate) fn usual_status(form: &LargeForm, k: u32) -> Status
    requires { k < form.now.cols + form.now.rows }
    ensures { result ≡ steps.usual_status form.now k }
{
    if k < form.cols() {
        lower_first(form, k)
    } else {
        Status::Basic
    }
}
