//! The outside: sources and sinks of bytes, which count their faults; links and listeners. Also the lines of what is read,
//! and the list type that contracts see as a plain list.
//!
//! | Item | What it is | Where |
//! |---|---|---|
//! | `Source`, `Sink` | where bytes come from, and where they go | src/outside |
//! | `send` | writes all of a piece | src/outside |
//! | `MemSource`, `MemSink` | both in memory, which fail at the calls that are listed | src/memory |
//! | `Lines`, `Line` | the lines of a source, one by one | src/lines |
//! | `Feed` | what a reader of texts answers at a line | src/feed |
//! | `Bytes`, `Name`, `Texts` | lists of bytes, and a list of them | src/bytes |
//! | `words` | the words of a line | src/word |
//! | `look_up`, `by_word` | what stands beside a word in a table, and what is done for a word | src/word |
//! | `beside` | what stands beside a word in a table | specs/Tables |
//! | `Rose`, `HasCause` | a fault was counted | specs/Causes |
//! | `ReadsLines` | the lines that several calls took, and of which bytes | specs/Taking |
//! | `ReadsAll`, `ReadsFront` | what was read in all, where a reader stops | specs/Taking |
//! | `ReadsLittleMore` | how little was read beyond the lines that were taken | specs/Taking |
//! | `Link` | a source and a sink on one object | src/link |
//! | `Listen` | what gives links, one after the other, and takes them back | src/listen |
//! | `LinkReport`, `LinkWork` | what is told of a link that has ended | src/report |
//! | `MemLink` | a link in memory, which fails at the calls that are listed | src/mem_link |
//! | `MemListen` | gives links in memory, and keeps those that come back | src/mem_listen |
//! | `LinkState` | what is known of a link | specs/LinkState |
//! | `LinkEvent` | that a link was given, or that it came back | specs/Listening |
//! | `Items` | a list of items of one type, which a contract sees as the plain list of them | src/list |
#![tactic(auto)]

mod bytes;
mod calls;
mod feed;
mod lines;
mod link;
mod list;
mod listen;
mod mem_event;
mod mem_link;
mod mem_listen;
mod memory;
mod outside;
mod part;
mod report;
mod word;

pub use bytes::{Bytes, Name, Texts, are_same};
pub use feed::Feed;
pub use lines::{Line, LineStop, Lines};
pub use link::Link;
pub use list::Items;
pub use listen::Listen;
pub use mem_link::MemLink;
pub use mem_listen::MemListen;
pub use memory::{MemSink, MemSource};
pub use outside::{Failed, Sink, Source, WriteFault, send};
pub use report::{LinkReport, LinkWork};
pub use word::{is_blank, look_up, words};
