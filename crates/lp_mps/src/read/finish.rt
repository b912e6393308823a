// What a line leads to, and the model of a text that has ended.
ghost use Rattle.std.specs.Prelude.{◌≡◌, [], Option, Some, None, IfOk};
ghost use Rattle.spec_model.specs.Kept.{AreAtMost, IsModel, large_limits};
ghost use Rattle.spec_mps.specs.Steps as steps;
ghost use Rattle.lp_mps.specs.Draft.{state_of, name_of};
ghost use Rattle.lp_mps.specs.Advances.{Advances};
ghost use Rattle.lp_mps.specs.Finished.{Ends, IsKept};
ghost use Rattle.lp_mps.specs.Leads.{IsReached};

use crate::read::column_list::Columns;
use crate::read::draft::Draft;
use crate::read::fault::{Fault, Went};
use crate::read::row_list::Rows;
use lp_base::{Line, Name};
use lp_model::{Model, Sense};
use spec_model::SizeLimits;
use spec_mps::{Code, Style};
use std::alloc::{AllocError, Global};
use std::mem;

// The model's name, which is empty where the text gave none.
fn name_or_none(alloc: Global, name: Option<Name>) -> Result<Name, AllocError>
    ensures { IfOk result (λ made. made ≡ name_of name) }
{
    match name {
        Some(name) => Ok(name),
        None => Name::from_slice(alloc, &[]),
    }
}

// The sense of the objective, which is `Min` where the text gave none.
fn sense_or_min(sense: Option<Sense>) -> Sense
    ensures { result ≡ steps.sense_or_min sense }
{
    match sense {
        Some(sense) => sense,
        None => Sense::Min,
    }
}

impl Draft {
    /// Reads a line. If it ends the text, gives the model that was read; else none.
    pub(crate) fn advance(
        &mut self,
        alloc: Global,
        limits: SizeLimits,
        style: Style,
        line: &Line,
    ) -> Result<Option<Model>, Fault>
        requires most { AreAtMost limits large_limits }
        requires reached { IsReached limits style (state_of self.old) }
        ensures { Advances (steps.step limits style (state_of self.old) line.now) (state_of self.new) result }
    {
        match self.step(alloc, limits, style, line)? {
            Went::On => Ok(None),
            Went::ToEnd => Ok(Some(self.finish(alloc)?)),
        }
    }

    // The model that was read. A fault where it has no objective. The current column becomes whole first.
    #[tactic(auto, unfolding(spec_mps::specs::Steps::finished, spec_mps::specs::Steps::model_by))]
    fn finish(&mut self, alloc: Global) -> Result<Model, Fault>
        requires { IsKept (steps.finished (state_of self.old)) }
        ensures { Ends (steps.finished (state_of self.old)) result }
    {
        self.columns.close()?;
        let name = name_or_none(alloc, self.name.take())?;
        match self.objective.take() {
            Some(objective) => Ok(self.take_model(alloc, name, objective)),
            None => Err(Fault::Code(Code::NoObjective)),
        }
    }

    // Makes the model of the rows and columns that were read, with these names of the model and of its objective. The
    // draft is left without rows and columns.
    #[tactic(auto, unfolding(spec_mps::specs::Steps::model_by))]
    fn take_model(&mut self, alloc: Global, name: Name, objective: Name) -> Model
        requires { IsModel (steps.model_by (record (state_of self.old) { name = name; column = None }) objective) }
        ensures { result ≡ steps.model_by (record (state_of self.old) { name = name; column = None }) objective }
    {
        let rows = mem::replace(&mut self.rows, Rows::new(alloc));
        let columns = mem::replace(&mut self.columns, Columns::new(alloc));
        Model::new(
            name,
            sense_or_min(self.sense),
            objective,
            self.offset,
            rows.into_vec(),
            columns.into_vec(),
        )
    }
}
