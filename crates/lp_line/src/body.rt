// The body of a command, line by line.
ghost use Rattle.std.specs.Prelude.{◌<◌, ◌-◌, ◌^◌, [], ◌∷◌, Some, IfOk};
ghost use Rattle.spec_text.specs.declared.line.Line.TheVariants as line;
ghost use Rattle.lp_line.specs.Body.{BodySays, PassesTo, count_in};

use crate::hearing::{Stage, Step};
use lp_base::Line;
use std::alloc::{AllocError, Global};

/// A body as far as it was read: in a stage of type `T`, or after the line at which this was said of it.
/// Later lines are passed over.
#[derive(Drop)]
pub enum Body<T, R> {
    Reading(T),
    Read(R),
}

/// Reads the next line of a body. Lines behind the one that settled its result, a fault or not, change nothing.
pub(crate) fn pass<T: Stage>(
    alloc: Global,
    body: Body<T, T::Said>,
    line: &Line,
) -> Result<Body<T, T::Said>, AllocError>
    requires { count_in T.count body < 2 ^ 32 - 1 }
    ensures { IfOk result (PassesTo T.says T.count body line.now) }
{
    match body {
        Body::Reading(stage) => match stage.advance(alloc, line)? {
            Step::On(next) => Ok(Body::Reading(next)),
            Step::Says(said) => Ok(Body::Read(said)),
        },
        Body::Read(said) => Ok(Body::Read(said)),
    }
}

/// The result of a body that has no more lines.
pub(crate) fn close<T: Stage>(alloc: Global, body: Body<T, T::Said>) -> Result<T::Said, AllocError>
    requires { count_in T.count body < 2 ^ 32 - 1 }
    ensures { IfOk result (λ said. BodySays T.says body (line.End ∷ []) (Some said)) }
{
    match body {
        Body::Reading(stage) => match stage.advance(alloc, &Line::End)? {
            Step::On(_) => unreachable!(),
            Step::Says(said) => Ok(said),
        },
        Body::Read(said) => Ok(said),
    }
}
