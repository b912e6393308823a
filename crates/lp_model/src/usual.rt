// Models of the sizes that sessions, forms and tableaus take.
ghost use Rattle.std.specs.Prelude.{◌≡◌};
ghost use Rattle.spec_model.specs.Kept.{IsUsual};

use crate::model::Model;
use spec_model::SizeLimits;

/// The most rows and columns of models in sessions, and of those that are solved by a form.
pub const USUAL_LIMITS: SizeLimits = SizeLimits {
    rows: 256,
    columns: 512,
};

/// The most rows and columns of any model.
pub const LARGE_LIMITS: SizeLimits = SizeLimits {
    rows: 65_536,
    columns: 131_072,
};

/// A model within the usual limits. To contracts it is the model.
#[derive(Drop)]
pub struct UsualModel {
    pub(crate) model: Model,
}

impl std::marker::Model for UsualModel {
    ghost use Rattle.spec_model.specs.Model as models;
    ghost use Rattle.spec_model.specs.Kept.{IsUsual};

    ghost Value = { models.Model };

    ghost view = { λ m. m.model };

    ghost invariant = { λ m. IsUsual m.model };
}

impl UsualModel {
    /// The model, which is within the usual limits, as a usual one.
    pub fn new(model: Model) -> UsualModel
        requires { IsUsual model }
        ensures { result ≡ model }
    {
        UsualModel { model }
    }

    /// The usual model, as a model of any size.
    pub fn model(&self) -> &Model
        ensures value { result.now ≡ self.now }
        ensures usual { IsUsual result.now }
    {
        &self.model
    }
}
