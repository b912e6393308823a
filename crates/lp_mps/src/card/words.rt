// Fields by words.
ghost use Rattle.std.specs.Prelude.{◌≡◌, IfOk, OnOk, []};
ghost use Rattle.spec_mps.specs.Fields as field;

use crate::card::Fields;
use lp_base::is_blank;
use std::alloc::{AllocError, Global};

// Adds the words of a line to an empty list of fields.
fn push_words(alloc: Global, line: &[u8], fields: &mut Fields) -> Result<(), AllocError>
    requires { fields.old ≡ [] }
    ensures { OnOk result (fields.new ≡ field.word_fields line.now) }
{
    for word in line.split(|b| is_blank(*b)) {
        fields.push_word(alloc, word)?;
    }
    Ok(())
}

/// The words of a line as fields, numbered from 1.
pub(crate) fn word_fields(alloc: Global, line: &[u8]) -> Result<Fields, AllocError>
    ensures { IfOk result (λ fields. fields ≡ field.word_fields line.now) }
{
    let mut fields = Fields::new(alloc);
    push_words(alloc, line, &mut fields)?;
    Ok(fields)
}
