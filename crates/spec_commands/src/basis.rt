// What the command `basis` is refused for.
use spec_bas::BasFault;
use spec_mps::MpsFault;
use thiserror::Error;

/// Why there is no model to solve from a basis.
#[derive(Clone, Copy, Debug, Error)]
pub enum BasisFault {
    /// The text spells no model.
    #[error("the text of the model: {0}")]
    Text(MpsFault),
    /// The file spells no basis of it.
    #[error("the basis file: {0}")]
    File(BasFault),
}
