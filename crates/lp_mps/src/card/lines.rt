// How a line begins.
ghost use Rattle.std.specs.Prelude.{◌≡◌};
ghost use Rattle.std.specs.List.{list_all};
ghost use Rattle.std.specs.Str.Lines.{strip_carriage_return};
ghost use Rattle.spec_text.specs.Words as word;
ghost use Rattle.spec_mps.specs.Cards as cards;

use lp_base::is_blank;

/// Whether the line is a comment, or has only blanks. A carriage return at its end does not count.
#[tactic(auto, unfolding(spec_mps::specs::Cards::is_skipped))]
pub(crate) fn is_skipped(line: &[u8]) -> bool
    ensures { result ≡ cards.is_skipped line.now }
{
    begins_with_star(line) || has_only_blanks(without_carriage_return(line))
}

// Whether the line begins with `*`: it is a comment.
fn begins_with_star(line: &[u8]) -> bool
    ensures { result ≡ cards.begins_with_star line.now }
{
    match line {
        [first, ..] => *first == b'*',
        [] => false,
    }
}

/// Whether the line begins with a blank, or is empty: then it is a data card, unless it is skipped.
pub(crate) fn begins_with_blank(line: &[u8]) -> bool
    ensures { result ≡ cards.begins_with_blank line.now }
{
    match line {
        [first, ..] => is_blank(*first),
        [] => true,
    }
}

// The line without a carriage return at its end.
fn without_carriage_return(line: &[u8]) -> &[u8]
    ensures { result.now ≡ strip_carriage_return line.now }
{
    match line {
        [rest @ .., b'\r'] => rest,
        _ => line,
    }
}

// Whether the line has no byte but spaces and tabs.
fn has_only_blanks(line: &[u8]) -> bool
    ensures { result ≡ list_all word.is_blank line.now }
{
    for b in line {
        if !is_blank(*b) {
            return false;
        }
    }
    true
}
