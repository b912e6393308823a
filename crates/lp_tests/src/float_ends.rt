// Ends of runs in floats: what lifting makes of their bases, with no step.
use crate::lifted_bases::{leads_to, model_of, statuses_of};
use lp_float::{FloatEnd, float_end, near_end};
use lp_model::Model;
use std::alloc::{AllocError, Global};
use std::test::Fail;

// From where a run begins: the logical basis, or statuses, a letter for each. From near a basis a short run is enough.
#[derive(Clone, Copy)]
enum Start {
    Logical,
    At(&'static str),
    Near(&'static str),
}

// The end of a run in floats from this start, if it has one.
fn end_of(alloc: Global, model: &Model, start: Start) -> Result<Option<FloatEnd>, AllocError> {
    match start {
        Start::Logical => float_end(alloc, model, None),
        Start::At(letters) => {
            let statuses = statuses_of(alloc, letters)?;
            float_end(alloc, model, Some(&statuses))
        }
        Start::Near(letters) => {
            let statuses = statuses_of(alloc, letters)?;
            near_end(alloc, model, &statuses)
        }
    }
}

// Whether a run in floats from this start ends, at a basis with the wanted answer, which the checker accepts.
fn has_answer(
    alloc: Global,
    model: &Model,
    start: Start,
    wanted: &str,
) -> Result<bool, AllocError> {
    match end_of(alloc, model, start)? {
        Some(end) => leads_to(alloc, model, &end.statuses, end.witness, 0, wanted),
        None => Ok(false),
    }
}

// A model, the start of a run, and the answer at its end.
type Case = (&'static str, Start, &'static str);

// Whether a run in floats for the case's model and start ends at a basis with the wanted answer.
fn holds(alloc: Global, case: Case) -> Result<bool, AllocError> {
    let (text, start, wanted) = case;
    match model_of(alloc, text)? {
        Some(model) => has_answer(alloc, &model, start, wanted),
        None => Ok(false),
    }
}

// x = 3 and y = 1.
const CORNER: &str = "NAME corner\nROWS\n N cost\n L R1\n L R2\n\
COLUMNS\n x cost -1 R1 1\n x R2 1\n y cost -2 R1 1\n y R2 3\n\
RHS\n r R1 5 R2 6\nBOUNDS\n UP b x 3\n UP b y 9\nENDATA\n";

// x is free, y at most 0, and R1 from 2 to 8; R2 is an equation.
const MIXED: &str = "NAME mixed\nROWS\n N cost\n G R1\n E R2\n\
COLUMNS\n x cost 3 R1 1\n x R2 1\n y cost -1 R1 1\n y R2 -2\n z cost 1 R2 1\n\
RHS\n r R1 2 R2 4\nRANGES\n g R1 6\n\
BOUNDS\n FR b x\n MI b y\n UP b y 0\n UP b z 5\nENDATA\n";

// x is at least 3 and y at least 2, so R1 is at most 5 and R2 at least 9.
const NOWHERE: &str = "NAME nowhere\nROWS\n N cost\n L R1\n L R2\n\
COLUMNS\n x cost -1 R1 1\n x R2 1\n y cost -2 R1 1\n y R2 3\n\
RHS\n r R1 5 R2 6\nBOUNDS\n LO b x 3\n LO b y 2\nENDATA\n";

const RISING: &str =
    "NAME rising\nROWS\n N cost\n L R1\nCOLUMNS\n x cost -1 R1 1\n y cost -1 R1 -1\n\
RHS\n r R1 3\nENDATA\n";

static CASES: [Case; 12] = [
    // From the logical basis a run ends at the optimal basis.
    (CORNER, Start::Logical, "-5"),
    // So does one from statuses that are a basis, from some that are none, and from none at all.
    (CORNER, Start::At("UBBU"), "-5"),
    (CORNER, Start::At("BBLL"), "-5"),
    (CORNER, Start::At("LLLL"), "-5"),
    (CORNER, Start::At(""), "-5"),
    // A short run from a basis ends at the answer, for a model of each of the three kinds.
    (CORNER, Start::Near("UBBU"), "-5"),
    (CORNER, Start::Near("LUBB"), "-5"),
    (NOWHERE, Start::Near("LLBB"), "infeasible"),
    (RISING, Start::Near("LLB"), "unbounded"),
    // A run takes free columns, columns below 0, ranges and equations.
    (MIXED, Start::Logical, "8"),
    // Of a model without a feasible point, and of one without a limit, lifting shows that from the statuses and the
    // witness at the end.
    (NOWHERE, Start::Logical, "infeasible"),
    (RISING, Start::Logical, "unbounded"),
];

// The place of the first case that does not hold; none if all hold.
fn first_wrong(alloc: Global, cases: &[Case]) -> Result<Option<usize>, AllocError> {
    for place in 0..cases.len() {
        if !holds(alloc, cases[place])? {
            return Ok(Some(place));
        }
    }
    Ok(None)
}

// Each run ends at the answer of its case.
#[test]
fn runs_end_at_answers(rt: HostRuntime) -> Result<(), Fail> {
    assert_eq!(rt; first_wrong(rt.alloc(), &CASES)?, None);
    Ok(())
}
