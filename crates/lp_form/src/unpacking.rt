// The basis in words.
ghost use Rattle.std.specs.Prelude.{◌≡◌, IfOk};
ghost use Rattle.spec_board.specs.Words.{IsWellFormed, unpacked};

use crate::basis::Basis;
use crate::codes::{cols_of, rows_of, status_at};
use spec_board::BasisWords;
use std::alloc::{AllocError, Global};

/// The basis in these words: the status of each structural and then each logical column.
#[tactic(auto, unfolding(spec_board::specs::Words::unpacked))]
pub fn unpack(alloc: Global, words: &BasisWords) -> Result<Basis, AllocError>
    requires { IsWellFormed words.now }
    ensures { IfOk result (λ basis. basis ≡ unpacked words.now) }
{
    let columns = (cols_of(words) + rows_of(words)) as u32;
    let mut statuses = Vec::new(alloc);
    for c in 0..columns {
        statuses.push(status_at(words, c))?;
    }
    Ok(Basis::from_vec(statuses, rows_of(words) as u32))
}
