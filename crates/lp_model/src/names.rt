// Names that a model may have.
ghost use Rattle.std.specs.Prelude.{◌≡◌};
ghost use Rattle.std.specs.List.{list_all};
ghost use Rattle.spec_model.specs.Kept as kept;

use lp_base::are_same;

/// The most bytes that a name may have.
const MAX_NAME: usize = 64;

// Whether the byte is a printable character of ASCII other than the space.
fn is_printable(b: u8) -> bool
    ensures { result ≡ kept.is_printable b }
{
    33 <= b && b <= 126
}

// Whether all bytes are printable characters of ASCII other than the space.
fn are_printable(text: &[u8]) -> bool
    ensures { result ≡ list_all kept.is_printable text.now }
{
    for b in text {
        if !is_printable(*b) {
            return false;
        }
    }
    true
}

/// Whether this may be the name of a column: 1 to 64 printable ASCII characters without spaces.
#[tactic(auto, unfolding(spec_model::specs::Kept::is_name))]
pub fn is_name(name: &[u8]) -> bool
    ensures { result ≡ kept.is_name name.now }
{
    !name.is_empty() && name.len() <= MAX_NAME && are_printable(name)
}

/// Whether this may be the name of a row or of the objective: 1 to 64 printable ASCII characters without spaces, and
/// not `'MARKER'`.
#[tactic(auto, unfolding(spec_model::specs::Kept::is_row_name))]
pub fn is_row_name(name: &[u8]) -> bool
    ensures { result ≡ kept.is_row_name name.now }
{
    is_name(name) && !are_same(name, b"'MARKER'")
}

/// Whether this may be the name of a model: at most 64 printable ASCII characters without spaces. It may be empty.
#[tactic(auto, unfolding(spec_model::specs::Kept::is_model_name))]
pub fn is_model_name(name: &[u8]) -> bool
    ensures { result ≡ kept.is_model_name name.now }
{
    name.len() <= MAX_NAME && are_printable(name)
}
