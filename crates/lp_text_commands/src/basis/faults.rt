// What is wrong with a text or the basis file after it, as it is written.
ghost use Rattle.std.specs.Prelude.{◌≡◌, ◌++◌, IfOk, OnOk};
ghost use Rattle.spec_bas.specs.Steps as checks;
ghost use Rattle.spec_commands.specs.BasisOut.{basis_fault_line};
ghost use Rattle.spec_commands.specs.declared.basis.BasisFault.TheVariants as faults;

use crate::exit_status::ExitStatus;
use crate::reply::print_reply;
use lp_base::Bytes;
use lp_line::{Refusal, Reply, push_numbered};
use spec_bas::{BasCode, BasFault};
use spec_commands::BasisFault;
use std::alloc::{AllocError, Global};

/// Appends the line of a fault in a text or in the basis file after it, and gives status 9.
#[tactic(auto, unfolding(spec_commands::specs::BasisOut::basis_fault_line))]
pub(crate) fn print_fault(
    alloc: Global,
    fault: BasisFault,
    to: &mut Bytes,
) -> Result<ExitStatus, AllocError>
    ensures output { OnOk result (to.new ≡ to.old ++ basis_fault_line fault) }
    ensures status { IfOk result (λ status. status.code ≡ 9) }
{
    match fault {
        BasisFault::Text(why) => {
            print_reply(alloc, Reply::Refused(Refusal::Misspelled(why)), to)?;
        }
        BasisFault::File(why) => print_basis_fault(alloc, why, to)?,
    }
    Ok(ExitStatus::REFUSED)
}

// The number that stands behind `B` in the line of a fault of a basis file.
fn code_number(code: BasCode) -> u64
    ensures { result ≡ checks.code_number code }
{
    match code {
        BasCode::Section => 1,
        BasCode::Card => 2,
        BasCode::UnknownColumn => 3,
        BasCode::UnknownRow => 4,
        BasCode::Repeated => 5,
        BasCode::NoUpperBound => 6,
        BasCode::Cut => 7,
    }
}

// Appends the line of a fault in a basis file.
#[tactic(auto, unfolding(spec_commands::specs::BasisOut::basis_fault_line))]
fn print_basis_fault(alloc: Global, fault: BasFault, to: &mut Bytes) -> Result<(), AllocError>
    ensures { OnOk result (to.new ≡ to.old ++ basis_fault_line (faults.File fault)) }
{
    push_numbered(alloc, b"ERR 17 BAS ", u64::from(fault.line), to)?;
    push_numbered(alloc, b" B", code_number(fault.code), to)?;
    to.extend(b"\n")
}
