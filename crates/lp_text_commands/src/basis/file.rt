// Where the reading of a basis file stands.
use lp_bas::BasReader;
use lp_form::LargeForm;
use lp_model::Model;
use spec_model::SizeLimits;

/// In a basis file, for a model within these limits and its form.
#[derive(Drop)]
pub(crate) struct FileStage {
    pub limits: SizeLimits,
    pub model: Model,
    pub form: LargeForm,
    pub reader: BasReader,
}

impl std::marker::Model for FileStage {
    ghost use Rattle.lp_text_commands.specs.FileAt.{FileAt, IsFileAt};

    ghost Value = { FileAt };

    ghost view = { λ f. record {
      limits = f.limits;
      model = f.model;
      form = f.form;
      state = f.reader.state;
      lines = f.reader.lines;
    } };

    ghost invariant = { λ f. IsFileAt (record {
      limits = f.limits;
      model = f.model;
      form = f.form;
      state = f.reader.state;
      lines = f.reader.lines;
    }) };
}
