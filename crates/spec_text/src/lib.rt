//! Texts: their lines, and the words of a line.
//!
//! | Item | What it is | Where |
//! |---|---|---|
//! | `Line` | a line, or what stands in its place at the end of an input | src/line |
//! | `lines_of` | the lines of a whole text | specs/Lines |
//! | `ended_lines_of` | those that a line feed ends | specs/Lines |
//! | `words_of` | the words of a line | specs/Words |
#![tactic(auto)]

mod line;

ghost use Rattle.std.specs.Prelude.{◌≡◌, ◌≢◌, ◌<◌, ◌++◌, ◌∷◌, [], List, ℕ, All, length};
ghost use Rattle.std.specs.Str.Lines.{strip_carriage_return};
ghost use Rattle.spec_text.specs.Lines.{line_of, lines_of, ended_lines_of};

pub use line::Line;

/// The lines of a text, from its start: the bytes before its first line feed, less one carriage return at their end,
/// are a line, and the lines of the bytes after it follow. Bytes without a line feed are one line; no bytes have no
/// line.
pub fn lines_from_the_front()
    ensures none { lines_of [] ≡ [] }
    ensures ended { (line more : List ℕ) → All (λ b. b ≢ 10) line →
        lines_of (line ++ 10 ∷ more) ≡ line_of (strip_carriage_return line) ∷ lines_of more }
    ensures last { (line : List ℕ) → All (λ b. b ≢ 10) line → 0 < length line → lines_of line ≡ line_of line ∷ [] }
{}

/// The ended lines of a text, from its start: the bytes before its first line feed, less one carriage return at their
/// end, are the first, and those of the bytes after it follow. Bytes without a line feed have no ended line.
pub fn ended_lines_from_the_front()
    ensures ended { (line more : List ℕ) → All (λ b. b ≢ 10) line →
        ended_lines_of (line ++ 10 ∷ more) ≡ line_of (strip_carriage_return line) ∷ ended_lines_of more }
    ensures last { (line : List ℕ) → All (λ b. b ≢ 10) line → ended_lines_of line ≡ [] }
{}
