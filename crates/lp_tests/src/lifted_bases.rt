// Answers of bases by lifting: of bases that are optimal, of some that are none, and of some that are a few steps away.
ghost use Rattle.std.specs.Prelude.{◌≡◌};

use lp_base::{Bytes, Feed, Lines, MemSource, Texts, are_same};
use lp_check::wide::{Known, Verdict, check};
use lp_lift::answer_of_basis;
use lp_model::Model;
use lp_mps::read::LargeReader;
use lp_numtext::wide_text;
use lp_ratio::Ratio;
use spec_mps::Style;
use spec_pivot::Status;
use std::alloc::{AllocError, Global};
use std::test::Fail;

// The model that the next lines of a source spell to a reader that has read none, if it has at most a hundred lines;
// none where they spell none.
fn next_model(
    alloc: Global,
    lines: &mut Lines,
    source: &mut MemSource,
    reader: &mut LargeReader,
) -> Option<Model>
    requires { reader.old.lines ≡ 0 }
{
    for _ in 0..100u32 {
        let answer = match lines.next(source) {
            Ok(line) => reader.feed(alloc, &line),
            Err(_) => return None,
        };
        match answer {
            Feed::More => {}
            Feed::Done(model) => return Some(model),
            Feed::Refused(_) | Feed::NoMemory => return None,
        }
    }
    None
}

// A source that gives a text.
fn source_of(alloc: Global, text: &str) -> Result<MemSource, AllocError> {
    let mut pieces = Texts::new(alloc);
    pieces.push(Bytes::from_slice(alloc, text.as_bytes())?)?;
    Ok(MemSource::new(pieces, Vec::new(alloc)))
}

// The model that a text spells in free style, if it has at most a hundred lines; none where it spells none.
pub(crate) fn model_of(alloc: Global, text: &str) -> Result<Option<Model>, AllocError> {
    let mut source = source_of(alloc, text)?;
    let mut lines = Lines::new(alloc)?;
    let mut reader = LargeReader::new(alloc, Style::Free);
    Ok(next_model(alloc, &mut lines, &mut source, &mut reader))
}

// The status that a letter says: `B` basic, `L` at the lower bound, `U` at the upper bound, any other at 0.
fn status_of(letter: u8) -> Status {
    match letter {
        b'B' => Status::Basic,
        b'L' => Status::AtLower,
        b'U' => Status::AtUpper,
        _ => Status::AtZero,
    }
}

// The statuses that the letters of a text say, one for each.
pub(crate) fn statuses_of(alloc: Global, letters: &str) -> Result<Vec<Status>, AllocError> {
    let mut list = Vec::new(alloc);
    for letter in letters.as_bytes() {
        list.push(status_of(*letter))?;
    }
    Ok(list)
}

// Whether the text of a value is the wanted one.
pub(crate) fn is_value(alloc: Global, value: &Ratio, wanted: &str) -> bool {
    match wide_text(alloc, value) {
        Ok(text) => are_same(text.as_slice(), wanted.as_bytes()),
        Err(_) => false,
    }
}

// Whether the verdict accepts a certificate, and what this shows is the wanted answer: the text of an optimal value,
// `infeasible` or `unbounded`.
fn shows(alloc: Global, verdict: &Verdict, wanted: &str) -> bool {
    match verdict {
        Verdict::Yes(Known::Optimal(value)) => is_value(alloc, value, wanted),
        Verdict::Yes(Known::Infeasible) => are_same(wanted.as_bytes(), b"infeasible"),
        Verdict::Yes(Known::Unbounded) => are_same(wanted.as_bytes(), b"unbounded"),
        Verdict::No(_) => false,
    }
}

// A model, a basis of it, and the answer that the basis leads to within so many steps.
type Case = (&'static str, &'static str, u32, &'static str);

// Whether the statuses are lifted within so many steps to a certificate that shows the wanted answer; or whether they
// are not, where `nothing` is wanted. The first step is tried at the witness, if there is one.
pub(crate) fn leads_to(
    alloc: Global,
    model: &Model,
    statuses: &[Status],
    witness: Option<usize>,
    most_steps: u32,
    wanted: &str,
) -> Result<bool, AllocError> {
    match answer_of_basis(alloc, model, statuses, witness, most_steps)? {
        Some(lifted) => {
            let verdict = check(alloc, model, &lifted.certificate)?;
            Ok(lifted.steps <= most_steps && shows(alloc, &verdict, wanted))
        }
        None => Ok(are_same(wanted.as_bytes(), b"nothing")),
    }
}

// Whether the case's basis is lifted within its steps to a certificate that shows the wanted answer; or whether it is
// not, where `nothing` is wanted.
fn holds(alloc: Global, case: Case) -> Result<bool, AllocError> {
    let (text, letters, most_steps, wanted) = case;
    let statuses = statuses_of(alloc, letters)?;
    match model_of(alloc, text)? {
        Some(model) => leads_to(alloc, &model, &statuses, None, most_steps, wanted),
        None => Ok(false),
    }
}

// 3 x + y >= 10^34 + 2 and x - y = 7, so x is a quarter of 10^34 + 9.
const WIDE: &str =
    "NAME wide\nROWS\n N cost\n G R1\n E R2\nCOLUMNS\n x cost 1 R1 3\n x R2 1\n y cost 2 R1 1\n y R2 -1\n\
RHS\n r R1 10000000000000000000000000000000002\n r R2 7\nENDATA\n";

const WIDE_VALUE: &str = "7499999999999999999999999999999992.75";

// The entries of y are twice those of x.
const DEPENDENT: &str =
    "NAME dependent\nROWS\n N cost\n G R1\n G R2\nCOLUMNS\n x cost 3 R1 1\n x R2 2\n y cost 5 R1 2\n \
y R2 4\n z cost 4 R1 1\n z R2 1\nRHS\n r R1 4\n r R2 6\nENDATA\n";

// f is fixed at 2, whatever its reduced cost. z is free, and has the reduced cost 0 beside x.
const STILL: &str =
    "NAME still\nROWS\n N cost\n G R1\nCOLUMNS\n f cost -5 R1 1\n z cost 1 R1 1\n x cost 1 R1 1\n\
RHS\n r R1 5\nBOUNDS\n FX b f 2\n FR b z\nENDATA\n";

// z costs half as much.
const CHEAP: &str =
    "NAME cheap\nROWS\n N cost\n G R1\nCOLUMNS\n f cost -5 R1 1\n z cost 0.5 R1 1\n x cost 1 R1 1\n\
RHS\n r R1 5\nBOUNDS\n FX b f 2\n FR b z\nENDATA\n";

// x + y is from 2 to 8.
const SIDES: &str = "NAME sides\nROWS\n N cost\n G R1\nCOLUMNS\n x cost -1 R1 1\n y cost 2 R1 1\n\
RHS\n r R1 2\nRANGES\n g R1 6\nBOUNDS\n UP b x 100\n UP b y 3\nENDATA\n";

const RISING: &str =
    "NAME rising\nROWS\n N cost\n L R1\nCOLUMNS\n x cost -1 R1 1\n y cost -1 R1 -1\n\
RHS\n r R1 3\nENDATA\n";

const NOWHERE: &str =
    "NAME nowhere\nROWS\n N cost\n G R1\n L R2\nCOLUMNS\n x cost 1 R1 1\n x R2 1\n y cost 2 R1 1\n \
y R2 1\nRHS\n r R1 5\n r R2 3\nENDATA\n";

// Each number is 10^18 times the one before.
const CHAIN: &str =
    "NAME chain\nROWS\n N cost\n G R1\n G R2\n G R3\n G R4\nCOLUMNS\n x R1 1 R2 -1000000000000000000\n \
u R2 1 R3 -1000000000000000000\n v R3 1 R4 -1000000000000000000\n w cost 1 R4 1\nRHS\n r R1 9\nENDATA\n";

const CHAIN_VALUE: &str = "9000000000000000000000000000000000000000000000000000000";

const DECIMALS: &str =
    "NAME decimals\nROWS\n N cost\n G R1\nCOLUMNS\n x cost 0.7 R1 0.1\n y cost 0.2 R1 0.03\n\
RHS\n r R1 1.7\nENDATA\n";

// The least common denominator of R1 is past 127 bits.
const PAST: &str =
    "NAME past\nROWS\n N cost\n G R1\nCOLUMNS\n x cost 1 R1 1/170141183460469231731687303715884105727\n \
y cost 1 R1 1/170141183460469231731687303715884105725\nRHS\n r R1 1\nENDATA\n";

const PAST_VALUE: &str = "170141183460469231731687303715884105725";

// So are those of both rows, and of their right sides.
const APART: &str =
    "NAME apart\nROWS\n N cost\n E R1\n E R2\nCOLUMNS\n x cost 1 R1 1/170141183460469231731687303715884105727\n \
x R2 1/170141183460469231731687303715884105725\n y cost 1 R1 1/170141183460469231731687303715884105725\n \
y R2 -1/170141183460469231731687303715884105727\nRHS\n r R1 1\n r R2 1/170141183460469231731687303715884105669\nENDATA\n";

const APART_VALUE: &str =
    "837987995621412318723376562387865382647319063441319442507955389418943389723918780642799821339608325449425445311702622517\
624366740705908043673534378017125/4925250774549309901534880012517951723811242003320450755572293661643880672789153093156917\
483086494147171724776439513";

const NO_ROWS: &str =
    "NAME none\nROWS\n N cost\nCOLUMNS\n x cost -2\nRHS\nBOUNDS\n UP b x 3\nENDATA\n";

static CASES: [Case; 38] = [
    // The optimal basis of a model with right sides past 64 bits is lifted to its value.
    (WIDE, "BBLL", 0, WIDE_VALUE),
    (WIDE, "BBLU", 0, WIDE_VALUE),
    // Statuses with too many or too few basic columns lead to the optimum within some steps, and some of them without any.
    (WIDE, "BBLB", 0, "nothing"),
    (WIDE, "BBLB", 9, WIDE_VALUE),
    (WIDE, "BBBB", 9, WIDE_VALUE),
    (WIDE, "BLLL", 9, WIDE_VALUE),
    (WIDE, "LLLL", 9, WIDE_VALUE),
    // Statuses are missing, one is behind the last column, and columns are at bounds that they do not have.
    (WIDE, "BB", 0, WIDE_VALUE),
    (WIDE, "BBLLB", 0, WIDE_VALUE),
    (WIDE, "UZBU", 9, WIDE_VALUE),
    // A singular basis gives nothing by itself, and leads to the optimum within some steps.
    (DEPENDENT, "BBLLL", 0, "nothing"),
    (DEPENDENT, "BBLLL", 9, "10"),
    (DEPENDENT, "BBBLL", 9, "10"),
    // A nonbasic fixed column may have any reduced cost, and a nonbasic free one none but 0.
    (STILL, "LZBL", 0, "-7"),
    (STILL, "UZBL", 0, "-7"),
    (CHEAP, "LZBL", 0, "nothing"),
    (CHEAP, "LZBL", 9, "-8.5"),
    // Bases with rows and columns at their upper limits are lifted, and lead to the optimum from the lower ones.
    (SIDES, "BLU", 0, "-8"),
    (SIDES, "BLL", 0, "nothing"),
    (SIDES, "BLL", 1, "-8"),
    (SIDES, "BUL", 1, "-8"),
    (SIDES, "LBL", 9, "-8"),
    // Bases of infeasible and of unbounded models lead to certificates that show it.
    (RISING, "BLU", 1, "unbounded"),
    (RISING, "LLB", 9, "unbounded"),
    (NOWHERE, "BLLB", 0, "infeasible"),
    (NOWHERE, "LBBU", 9, "infeasible"),
    (NOWHERE, "LLBB", 9, "infeasible"),
    // A basis whose numbers grow past 127 bits is lifted to its value.
    (CHAIN, "BBBBLLLL", 0, CHAIN_VALUE),
    (CHAIN, "LLLLBBBB", 9, CHAIN_VALUE),
    // Rows whose common denominator is past 127 bits are lifted to the right values.
    (PAST, "LBL", 0, PAST_VALUE),
    (PAST, "BLL", 9, PAST_VALUE),
    (PAST, "BBL", 9, PAST_VALUE),
    (APART, "BBLL", 0, APART_VALUE),
    (APART, "LLBB", 9, APART_VALUE),
    // Decimal coefficients give a fraction, and a model without rows is answered by its bounds.
    (DECIMALS, "LBL", 0, "34/3"),
    (DECIMALS, "BLL", 9, "34/3"),
    (NO_ROWS, "U", 0, "-6"),
    (NO_ROWS, "B", 9, "-6"),
];

// The place of the first case that does not hold; none if all hold.
fn first_wrong(alloc: Global, cases: &[Case]) -> Result<Option<usize>, AllocError> {
    for place in 0..cases.len() {
        if !holds(alloc, cases[place])? {
            return Ok(Some(place));
        }
    }
    Ok(None)
}

// Each basis leads to the answer of its case.
#[test]
fn bases_lead_to_answers(rt: HostRuntime) -> Result<(), Fail> {
    assert_eq!(rt; first_wrong(rt.alloc(), &CASES)?, None);
    Ok(())
}
