// What a solve with what was found comes to.
ghost use Rattle.std.specs.Prelude.{◌≡◌, IfSome};
ghost use Rattle.spec_board.specs.Words.{IsWellFormed};
ghost use Rattle.spec_server.specs.Step as step;
ghost use Rattle.lp_solve.specs.Fit.{LeavesBasis};

use lp_check::Known;
use lp_form::{Form, pack};
use lp_solve::{End, Route};
use spec_board::{BasisWords, Found};
use spec_server::How;

// How an answer was found: cold, from the basis of the place that was found, or cold after that basis was given up.
pub(crate) fn how_by(found: Option<Found<BasisWords>>, route: Route) -> How
    ensures { result ≡ step.how_by found route }
{
    let Some(place) = found else {
        return How::Cold;
    };
    match route {
        Route::Cold => How::Cold,
        Route::Warm => How::Basis(place.place),
        Route::Fell(why) => How::Fell(place.place, why),
    }
}

// Whether these words are those of the basis that was found, if one was.
pub(crate) fn is_found(found: Option<Found<BasisWords>>, words: &BasisWords) -> bool
    ensures { result ≡ step.is_found found words.now }
{
    match found {
        Some(place) => words[..] == place.words[..],
        None => false,
    }
}

// The words of the basis of an optimum; none at another end, or at an optimum without a basis.
pub(crate) fn words_of_end(form: &Form, end: &End) -> Option<BasisWords>
    requires { LeavesBasis form.now end.now }
    ensures value { result ≡ step.words_of_end form.now end.now }
    ensures formed { IfSome result IsWellFormed }
{
    prove!(form.rows() <= 256);
    match end {
        End::Ended {
            answer: Known::Optimal(_),
            basis: Some(basis),
            ..
        } => Some(pack(form, basis)),
        End::Ended { .. } | End::Past(_) | End::Spent => None,
    }
}
