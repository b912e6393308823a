// What the words ask for in place of a command.
ghost use Rattle.std.specs.Prelude.{◌≡◌, map, string_bytes, IsSome, None};
ghost use Rattle.spec_program.specs.CommandLine as command_lines;
ghost use Rattle.lp_command_line.specs.Notices as asked;

use lp_base::are_same;

/// What the program shows of itself.
#[derive(Clone, Copy)]
pub enum Notice {
    /// Its commands, their options and the statuses.
    Usage,
    /// Its name and its version.
    Version,
}

// The notice that the word stands for: the usage or the version. None for any other word.
fn named(word: &[u8]) -> Option<Notice>
    ensures { result ≡ asked.named word.now }
{
    if are_same(word, b"--help") {
        return Some(Notice::Usage);
    }
    if are_same(word, b"--version") {
        return Some(Notice::Version);
    }
    None
}

// The notice that the words stand for: the usage or the version. None for any other words.
#[tactic(auto, unfolding(crate::specs::Notices::notice_of))]
fn asked_by(words: &[String]) -> Option<Notice>
    ensures { result ≡ asked.notice_of (map string_bytes words.now) }
{
    match words {
        [word] => named(word.as_bytes()),
        [_, option] if are_same(option.as_bytes(), b"--help") => Some(Notice::Usage),
        _ => None,
    }
}

/// The notice that the words stand for: the usage or the version. Such words are no command line.
pub fn notice_of(words: &[String]) -> Option<Notice>
    ensures notice { result ≡ asked.notice_of (map string_bytes words.now) }
    ensures none { IsSome result → command_lines.command_line_of (map string_bytes words.now) ≡ None }
{
    asked_by(words)
}
