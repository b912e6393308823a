// What is said of words that are no command line: which word is at fault, what may have been meant in its place, and how
// the command is used.
use crate::nearest::nearest;
use crate::told::what_is_read;
use crate::usage::{COMMANDS, OPTIONS, usage};
use lp_command_line::{Plain, WordFault, word_fault};
use std::alloc::{AllocError, Global};
use std::io;

// The words that are answered by a notice.
static NOTICES: [&str; 2] = ["--help", "--version"];

// The values of `--form`.
static FORMS: [&str; 2] = ["free", "fixed"];

// What `range` takes as its first word.
static RANGED: [&str; 3] = ["cost", "rhs", "all"];

/// Writes on standard error that the words are no command line, and behind that line why. Where memory runs out, it says
/// no more than what it has said by then.
pub fn tell_words(rt: &HostRuntime, alloc: Global, words: &[String]) -> io::Result<()> {
    eprintln!(rt; "lpd: bad command line")?;
    let (Some(first), Some(fault)) = (words.first(), word_fault(words)) else {
        return tell_no_word(rt, alloc);
    };
    let command = command_of(first.as_str());
    tell_reason(rt, alloc, command, fault_behind(command, words, fault))?;
    if let Some(command) = command {
        tell_usage(rt, alloc, command)?;
    }
    eprintln!(rt; "lpd --help shows the commands, their options and the statuses")
}

// Writes on standard error that there is no word, and the whole usage. Memory may run out.
fn tell_no_word(rt: &HostRuntime, alloc: Global) -> io::Result<()> {
    eprintln!(rt; "lpd: there is no word")?;
    let text = usage(alloc)?;
    eprint!(rt; "{text}")
}

// Writes on standard error what the fault of a command line is, and behind it, where a word is near, whether that was
// meant. Where memory runs out, it writes nothing.
fn tell_reason(
    rt: &HostRuntime,
    alloc: Global,
    command: Option<Head>,
    fault: WordFault<&[u8]>,
) -> io::Result<()> {
    let why = reason(alloc, command, fault)?;
    let hint = hint(alloc, command, fault)?;
    eprintln!(rt; "lpd: {why}{hint}")
}

// Writes on standard error the usage line of a command: its name, the words that are no options, and its options. Memory
// may run out.
fn tell_usage(rt: &HostRuntime, alloc: Global, command: Head) -> io::Result<()> {
    let mut line = String::from_str(alloc, command.line)?;
    push_options(alloc, &mut line, command.name)?;
    eprintln!(rt; "Usage: lpd {line}")
}

// A command: its name, its plain words, and both as one line of the usage.
#[derive(Clone, Copy)]
struct Head {
    line: &'static str,
    name: &'static str,
    plain: &'static str,
}

// A command line of the usage, split into the command's name and the words behind it that are no options.
fn head_of(line: &'static str) -> Head {
    let (name, plain) = line.split_once(' ').unwrap_or((line, ""));
    Head { line, name, plain }
}

// The name of the command or notice, and the words behind it in the usage; none where there is neither.
fn command_of(word: &str) -> Option<Head> {
    for (line, _) in &COMMANDS {
        let head = head_of(line);
        if head.name == word {
            return Some(head);
        }
    }
    for notice in &NOTICES {
        if *notice == word {
            return Some(head_of(notice));
        }
    }
    None
}

// The fault of the command line, where a notice counts as a command that takes no further word.
fn fault_behind<'a>(
    command: Option<Head>,
    words: &'a [String],
    fault: WordFault<&'a [u8]>,
) -> WordFault<&'a [u8]> {
    match (command, fault, words) {
        (Some(_), WordFault::NoCommand(_), [_, further, ..]) => {
            WordFault::NoOption(further.as_bytes())
        }
        _ => fault,
    }
}

// Whether options under this heading are the command's.
fn is_of(command: &str, heading: &str) -> bool {
    for word in heading.split(' ') {
        if word.trim_end_matches(',') == command {
            return true;
        }
    }
    false
}

// Puts the options of a command behind its usage line. Memory may run out.
fn push_options(alloc: Global, line: &mut String, command: &str) -> Result<(), AllocError> {
    for (heading, name, value, _) in &OPTIONS {
        if is_of(command, heading) {
            let option = option_of(alloc, name, value)?;
            line.push_str(option.as_str())?;
        }
    }
    Ok(())
}

// An option as a line of the usage shows it, behind a blank: ` [--NAME VALUE]`, or ` [--NAME]` for a switch, whose
// value is empty. Memory may run out.
fn option_of(alloc: Global, name: &str, value: &str) -> Result<String, AllocError> {
    let blank = if value == "" { "" } else { " " };
    format!(in alloc; " [--{name}{blank}{value}]")
}

// The sentence that says what the fault of a command line is, with the word that is at fault. Memory may run out.
fn reason(
    alloc: Global,
    command: Option<Head>,
    fault: WordFault<&[u8]>,
) -> Result<String, AllocError> {
    let (name, plain) = match command {
        Some(head) => (head.name, head.plain),
        None => ("lpd", "a command"),
    };
    match fault {
        WordFault::NoWord => String::from_str(alloc, "there is no word"),
        WordFault::NoCommand(word) => format!(in alloc; "there is no command {:?}", text(word)),
        WordFault::TooFew => format!(in alloc; "{name} wants {plain}"),
        WordFault::NotPlain(place, word) => {
            format!(in alloc; "{:?} is no {}", text(word), wanted(place))
        }
        WordFault::NoOption(word) => no_option(alloc, name, text(word)),
        WordFault::Twice(word) => format!(in alloc; "{} is given twice", text(word)),
        WordFault::NoValue(word) => format!(in alloc; "{} has no value", text(word)),
        WordFault::NotValue(option, value) => no_value(alloc, text(option), text(value)),
    }
}

// That a word behind the command is none of its options, or one too many. Memory may run out.
fn no_option(alloc: Global, name: &str, word: &str) -> Result<String, AllocError> {
    let says = if word.starts_with('-') {
        " has no option "
    } else {
        " takes no further word "
    };
    format!(in alloc; "{name}{says}{word:?}")
}

// That an option cannot have this value, and what the usage says of the option. Memory may run out.
fn no_value(alloc: Global, option: &str, value: &str) -> Result<String, AllocError> {
    let says = said_of(option);
    format!(in alloc; "{value:?} is no value of {option}: {says}")
}

// The word as text. A word that is no text can't come here.
fn text(word: &[u8]) -> &str {
    match str::from_utf8(word) {
        Ok(text) => text,
        Err(_) => "?",
    }
}

// The words of the message that tell what an argument of this kind has to be: an argument that is no option.
fn wanted(plain: Plain) -> &'static str {
    match plain {
        Plain::Address => "ADDRESS: an IP address or a host, a colon and a port",
        Plain::Number => "WHAT: cost, rhs or all",
        Plain::Name => "NAME: that of a column or row, and it begins with no -",
        Plain::Seed => "SEED: 0 to 1,000,000",
        Plain::Rows => "ROWS: 1 to 256",
        Plain::Columns => "COLS: 1 to 512",
    }
}

// What the usage says of an option, and what it calls the option's value. A switch has no value: that is empty.
#[derive(Clone, Copy)]
struct Setting {
    value: &'static str,
    says: &'static str,
}

// The value and the description of the option with this name, which has no dashes; none for another name.
fn setting_of(option: &str) -> Option<Setting> {
    for (_, name, value, says) in &OPTIONS {
        if *name == option {
            return Some(Setting {
                value: *value,
                says: *says,
            });
        }
    }
    None
}

// What the usage says of an option, whose name may have dashes; empty where there is no such option.
fn said_of(option: &str) -> &'static str {
    match setting_of(option.trim_start_matches('-')) {
        Some(setting) => setting.says,
        None => "",
    }
}

// Whether an option has a value; a switch has none, nor has another name.
fn has_value(option: &str) -> bool {
    match setting_of(option) {
        Some(setting) => setting.value != "",
        None => false,
    }
}

// The question which word may have been meant, to be written behind the reason; empty where none is near. Memory may
// run out.
fn hint(
    alloc: Global,
    command: Option<Head>,
    fault: WordFault<&[u8]>,
) -> Result<String, AllocError> {
    match (command, fault) {
        (None, WordFault::NoCommand(word)) => meant_command(alloc, text(word)),
        (Some(head), WordFault::NoOption(word)) => meant_option(alloc, head.name, text(word)),
        (Some(_), WordFault::NotValue(b"--form", value)) => meant(alloc, text(value), &FORMS),
        (Some(_), WordFault::NotPlain(Plain::Number, word)) => meant(alloc, text(word), &RANGED),
        _ => Ok(String::new(alloc)),
    }
}

// The question whether the name nearest to the word was meant, if one is near, or nothing. Memory may run out.
fn meant(alloc: Global, word: &str, names: &[&'static str]) -> Result<String, AllocError> {
    match nearest(alloc, word, names)? {
        Some(name) => format!(in alloc; "; did you mean {name}?"),
        None => Ok(String::new(alloc)),
    }
}

// The question whether the command nearest to the word was meant, if one is near, or nothing. Memory may run out.
fn meant_command(alloc: Global, word: &str) -> Result<String, AllocError> {
    let mut names = Vec::new(alloc);
    for (line, _) in &COMMANDS {
        names.push(head_of(line).name)?;
    }
    names.extend_from_slice(&NOTICES)?;
    meant(alloc, word, names.as_slice())
}

// The question whether an option, or a file, was meant. An option and its value may stand in one word. What begins as
// no option may be the name of a file. Memory may run out.
fn meant_option(alloc: Global, command: &str, word: &str) -> Result<String, AllocError> {
    let (name, value) = match word.split_once('=') {
        Some(parts) => parts,
        None => (word, ""),
    };
    match nearest_option(alloc, command, name)? {
        Some(option) if has_value(option) => meant_value(alloc, option, value),
        Some(option) => meant_value(alloc, option, ""),
        None if is_file(command, word) => meant_file(alloc, word),
        None => Ok(String::new(alloc)),
    }
}

// The option of the command that is nearest to the name, if one is near. Memory may run out.
fn nearest_option(
    alloc: Global,
    command: &str,
    name: &str,
) -> Result<Option<&'static str>, AllocError> {
    let mut names = Vec::new(alloc);
    for (heading, option, _, _) in &OPTIONS {
        if is_of(command, heading) {
            names.push(*option)?;
        }
    }
    nearest(alloc, name, names.as_slice())
}

// The question whether the option was meant, with this value where there is one. Of the value no control character is
// written. Memory may run out.
fn meant_value(alloc: Global, option: &str, value: &str) -> Result<String, AllocError> {
    let blank = if value == "" { "" } else { " " };
    format!(in alloc; "; did you mean --{option}{blank}{}?", value.escape_debug())
}

// Whether the word may be the name of a file: the command reads standard input, and the word begins as no option does.
fn is_file(command: &str, word: &str) -> bool {
    what_is_read(command).is_some() && !word.starts_with('-')
}

// The question whether the word is the name of a file that was to be read. Of it no control character is written.
// Memory may run out.
fn meant_file(alloc: Global, word: &str) -> Result<String, AllocError> {
    format!(in alloc;
        "; it reads standard input: did you mean < {}?",
        word.escape_debug()
    )
}
