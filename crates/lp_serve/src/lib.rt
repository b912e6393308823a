//! Sessions over connections: each worker serves one after the other, and all share one board.
//!
//! | Item | What it is | Where |
//! |---|---|---|
//! | `serve_link` | serves the session of one link | src/link |
//! | `serve` | serves the links of many listeners, each by a worker of its own | src/serving |
//! | `ServeFault` | why not all links were served, or not all was said of them | src/fault |
//! | `Desk` | what one worker has: a listener, and how its links ended | src/desk |
//! | `IsOpen`, `HasServed` | a desk before its turn, and a worker after it | specs/Desks |
//! | `Steps`, `ServesBy` | the steps of a link's session, by the calls of a pass | specs/Service |
//! | `Served`, `Listened`, `Serves` | links as they were given and came back, one after the other, and what a server does | specs/Serving |
#![tactic(auto)]

mod desk;
mod desks;
mod ends;
mod fault;
mod link;
mod serving;

pub use fault::ServeFault;
pub use link::serve_link;
pub use serving::serve;
pub use spec_serve::LinkEnd;
