// A model and the basis from which it is solved.
use lp_form::{Basis, LargeForm};
use lp_model::Model;

/// The form of a model, and a basis of it from which a solve starts.
#[derive(Drop)]
pub(crate) struct Start {
    pub form: LargeForm,
    pub basis: Basis,
}

/// A model that is to be solved, and from where, if it has a form.
#[derive(Drop)]
pub(crate) struct Handed {
    pub model: Model,
    pub start: Option<Start>,
}

impl std::marker::Model for Handed {
    ghost use Rattle.spec_commands.specs.BasisOut as reading;
    ghost use Rattle.lp_text_commands.specs.Handed.{handed_of, IsStartOf};

    ghost Value = { reading.Handed };

    ghost view = { λ h. handed_of h.model h.start };

    ghost invariant = { λ h. IsStartOf h.model h.start };
}
