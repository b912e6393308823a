// What a step comes to, and what the steps lead to.
ghost use Rattle.std.specs.Prelude.{◌≡◌, IfSome, length};

use lp_check::wide::Certificate;
use spec_pivot::Status;

/// What a step comes to: another basis or other costs, a certificate, or nothing, as a number is past what is taken.
#[derive(Drop)]
pub(crate) enum Step {
    Moved,
    Ended(Certificate),
    Lost,
}

/// A certificate that is likely right, the statuses of the basis that it comes from, and how many steps led to it.
#[derive(Drop)]
pub struct Lifted {
    pub certificate: Certificate,
    pub statuses: Vec<Status>,
    pub steps: u32,
}

/// A certificate, the statuses of its basis, and the steps that led to it. `None` where there are not statuses of
/// `columns` columns.
pub(crate) fn lifted_from(
    certificate: Certificate,
    statuses: Vec<Status>,
    columns: usize,
    steps: u32,
) -> Option<Lifted>
    ensures certificate { IfSome result (λ l. l.certificate ≡ certificate) }
    ensures statuses { IfSome result (λ l. length l.statuses.items ≡ columns) }
{
    if statuses.len() != columns {
        drop(statuses);
        drop(certificate);
        return None;
    }
    Some(Lifted {
        certificate,
        statuses,
        steps,
    })
}
