// Words with which lines begin.
ghost use Rattle.std.specs.Prelude.{◌≡◌, ◌++◌, OnOk, codes};

use lp_base::Bytes;
use std::alloc::AllocError;

/// Appends a word, a name behind it, and a space.
pub(crate) fn print_named(word: &[u8], name: &[u8], to: &mut Bytes) -> Result<(), AllocError>
    ensures { OnOk result (to.new ≡ to.old ++ (word.now ++ name.now ++ codes " ")) }
{
    to.extend(word)?;
    to.extend(name)?;
    to.push(b' ')
}
