//! Connections (links) over TCP.
//!
//! | Item | What it is | Where |
//! |---|---|---|
//! | `read_again`, `write_again` | a read and a write, which a signal does not end | src/again |
//! | `counted` | counts a fault | src/again |
//! | `TcpLink` | a TCP stream as a link | src/link |
//! | `TcpNet` | gives one worker the links of a TCP socket, which others may share, and says how each ended | src/net |
//! | `LinkLine` | what it says | src/said |
#![tactic(auto)]

mod again;
mod link;
mod net;
mod said;

pub use again::{counted, read_again, write_again};
pub use link::TcpLink;
pub use net::TcpNet;
