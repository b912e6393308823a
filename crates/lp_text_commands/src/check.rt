// The commands `check` and `check --wide`: the verdict on the certificate that follows the text of its model.
mod stage;
mod wide;
mod wide_stage;

pub(crate) use stage::CheckStage;
pub(crate) use wide_stage::WideStage;
