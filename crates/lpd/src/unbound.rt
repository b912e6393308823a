// Why a server cannot listen.
use std::io;
use std::io::{Error, ErrorKind};

/// An address where a server could not listen, and what the system said.
#[derive(Drop)]
pub struct Unbound<'a> {
    pub address: &'a String,
    pub error: Error,
}

/// Writes on standard error that the server cannot listen, and why: in words of this program where the kind of the error
/// says it, and else in those of the system. Of the address no control character is written.
pub fn tell_unbound(rt: &HostRuntime, unbound: &Unbound<'_>) -> io::Result<()> {
    let address = unbound.address.escape_debug();
    match why(unbound.error.kind()) {
        Some(why) => eprintln!(rt; "lpd: cannot listen on {address}: {why} (status 7)"),
        None => {
            eprintln!(rt;
                "lpd: cannot listen on {address}: {} (status 7)",
                unbound.error
            )
        }
    }
}

// Why a server cannot listen, by the kind of the error; none where this program has no words for it.
fn why(kind: ErrorKind) -> Option<&'static str> {
    match kind {
        ErrorKind::AddrInUse => Some("it is in use"),
        ErrorKind::AddrNotAvailable => Some("this machine has no such address"),
        ErrorKind::PermissionDenied => Some("that is not allowed"),
        ErrorKind::InvalidInput => Some("it is no host, colon and port"),
        _ => None,
    }
}
