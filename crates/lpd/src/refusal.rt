// Why what was read is refused, in a sentence. The reply on standard output says it by number.
use lp_command_line::command_line_of;
use spec_mps::Style;
use spec_program::{CommandLine, Moved, TextCommand};
use std::io;

// A word of a reply, and what it says.
type Meaning = (&'static str, &'static str);

// The faults of a model's text, but for `M3` and `M16`: what these say depends on the form and on the command.
static MODEL_FAULTS: [Meaning; 17] = [
    (
        "M1",
        "this section may not come here; the order is NAME, OBJSENSE, ROWS, COLUMNS, RHS, RANGES, BOUNDS, ENDATA",
    ),
    (
        "M2",
        "there is no such section; other lines begin with a blank",
    ),
    (
        "M4",
        "there is no such type of row; the types are N, L, G and E",
    ),
    ("M5", "an earlier row, or the objective, has this name"),
    ("M6", "the name of this row is not declared under ROWS"),
    (
        "M7",
        "this column came before; the cards of a column stand together",
    ),
    ("M8", "this row has such a number already"),
    (
        "M9",
        "this is no number; numbers are decimals, as -1.5e3, or quotients, as 2/3",
    ),
    (
        "M10",
        "this number does not fit 127 bits; its numerator and its denominator are at most 2^127 - 1",
    ),
    (
        "M11",
        "there is no such kind of bound, or it does not take this value; the kinds are UP, LO, FX, FR, MI and PL",
    ),
    (
        "M12",
        "integer columns are not read; lpd-py solve --relax takes them as others",
    ),
    (
        "M13",
        "semi-continuous columns are not read; give the column plain bounds",
    ),
    (
        "M14",
        "the name of this column is not declared under COLUMNS",
    ),
    ("M15", "there is no objective; ROWS needs a row of type N"),
    (
        "M17",
        "this is no name; a name has 1 to 64 bytes from ! to ~, and no row is named 'MARKER'",
    ),
    ("M18", "the objective takes no range"),
    ("M19", "the text ends before ENDATA"),
];

// The faults of a basis file.
static BASIS_FAULTS: [Meaning; 7] = [
    (
        "B1",
        "this is neither NAME, which comes first, nor ENDATA; a card begins with a blank",
    ),
    (
        "B2",
        "this is no card; XU and XL have a column and a row, and UL and LL a column",
    ),
    ("B3", "the model has no such column"),
    ("B4", "the model has no such row; the objective is none"),
    ("B5", "an earlier card has this column or this row"),
    (
        "B6",
        "this column has no upper bound; without its card it is at its lower bound, or at 0",
    ),
    ("B7", "the file ends before ENDATA"),
];

// What is refused, why, and what may be done about it.
#[derive(Clone, Copy)]
enum Refusal<'a> {
    // A line, counted from 1, of the model's text or of what follows it.
    Line {
        number: &'a str,
        of: &'static str,
        why: &'static str,
    },
    Name {
        why: &'static str,
        name: &'a str,
    },
}

/// Writes on standard error why a command on a text was refused. The reply on standard output says it by number; where it is
/// not known, this says where to look. Of a name no control character is written.
pub fn tell_refused(rt: &HostRuntime, words: &[String], reply: Option<&str>) -> io::Result<()> {
    match refusal_of(words, reply) {
        Some(Refusal::Line { number, of, why }) => {
            eprintln!(rt; "lpd: line {number}{of}: {why} (status 9)")
        }
        Some(Refusal::Name { why, name }) => eprintln!(rt; "lpd: {why} {name:?} (status 9)"),
        None => {
            eprintln!(rt; "lpd: the text was refused; the reason is on standard output (status 9)")
        }
    }
}

// What was refused, and why, by the reply: `ERR`, the number of the error, a word, and what is refused. None where
// more is not known.
fn refusal_of<'a>(words: &[String], reply: Option<&'a str>) -> Option<Refusal<'a>> {
    let (code, said) = reply?.strip_prefix("ERR ")?.split_once(' ')?;
    let (_, what) = said.split_once(' ')?;
    match command_line_of(words) {
        Some(CommandLine::Read(command, style)) => refusal_by(command, style, code, what),
        _ => None,
    }
}

// What was refused, and why, by the number of the error.
fn refusal_by<'a>(
    command: TextCommand<&[u8]>,
    style: Style,
    code: &str,
    what: &'a str,
) -> Option<Refusal<'a>> {
    match code {
        "5" => Some(unknown(command, what)),
        "8" => of_line(command, style, what, "", &MODEL_FAULTS),
        "12" => Some(Refusal::Name {
            why: "the certificate has two lines of one letter for",
            name: what,
        }),
        "14" => Some(Refusal::Line {
            number: what,
            of: " of the certificate",
            why: expected(what, matches!(command, TextCommand::CheckWide)),
        }),
        "17" => of_line(command, style, what, " of the basis file", &BASIS_FAULTS),
        _ => None,
    }
}

// The refusal of a name that the model does not have.
fn unknown<'a>(command: TextCommand<&[u8]>, name: &'a str) -> Refusal<'a> {
    let why = match command {
        TextCommand::Range {
            moved: Moved::Cost,
            ..
        } => "the model has no column named",
        TextCommand::Range { .. } => "beside its objective the model has no row named",
        _ => "the model has no column, or for y no row, named",
    };
    Refusal::Name { why, name }
}

// The refusal of a line, from its number and the word of its fault, where these are the faults of its text; none for
// another word. `of` says which text this is, if it is not the model's.
fn of_line<'a>(
    command: TextCommand<&[u8]>,
    style: Style,
    what: &'a str,
    of: &'static str,
    faults: &[Meaning],
) -> Option<Refusal<'a>> {
    let (number, fault) = what.split_once(' ')?;
    let why = match fault {
        "M3" => other_form(style),
        "M16" => limits(command),
        _ => meaning(faults, fault)?,
    };
    Some(Refusal::Line { number, of, why })
}

// That the fields of a card are not those of its section, and how a text in the other form is read.
fn other_form(style: Style) -> &'static str {
    match style {
        Style::Free => {
            "these are not the fields of a card of this section; a text in fixed form takes --form fixed"
        }
        Style::Fixed => {
            "these are not the fields of a card of this section; a text in free form takes --form free"
        }
    }
}

// What of a model is more than the command takes, and, if there is one, which command takes larger models.
fn limits(command: TextCommand<&[u8]>) -> &'static str {
    match command {
        TextCommand::SolveWide | TextCommand::CheckWide | TextCommand::BasisWide => {
            "more than 65,536 rows, 131,072 columns or 16,384 bytes of a line"
        }
        TextCommand::Check => {
            "more than 256 rows, 512 columns or 16,384 bytes of a line; lpd check --wide takes larger models"
        }
        TextCommand::Basis => {
            "more than 256 rows, 512 columns or 16,384 bytes of a line; lpd basis --wide takes larger models"
        }
        _ => {
            "more than 256 rows, 512 columns or 16,384 bytes of a line; lpd solve --wide takes larger models"
        }
    }
}

// What the line of a certificate with this number has to be. The first line of what `solve` writes is no such line.
fn expected(number: &str, is_wide: bool) -> &'static str {
    match (number, is_wide) {
        ("1", _) => {
            "expected OPTIMAL, INFEASIBLE, UNBOUNDED, or CLASH and a column; of what lpd solve writes leave out the first line, as sed 1d does"
        }
        ("2", true) => {
            "expected END, or a letter of its kind (x, y or r), a name and a number; of what lpd solve writes leave out the first line"
        }
        ("2", false) => {
            "expected END, or a letter of its kind (x, y or r), a name and a number of 127 bits; lpd check --wide takes wider ones; of what lpd solve writes leave out the first line"
        }
        (_, true) => "expected END, or a letter of its kind (x, y or r), a name and a number",
        (_, false) => {
            "expected END, or a letter of its kind (x, y or r), a name and a number of 127 bits; lpd check --wide takes wider ones"
        }
    }
}

// What the word of a fault says; none if the list does not have the word.
fn meaning(faults: &[Meaning], fault: &str) -> Option<&'static str> {
    for (word, why) in faults {
        if *word == fault {
            return Some(*why);
        }
    }
    None
}
