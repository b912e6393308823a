// Two links before one worker, none, and links that fail at each of their reads and writes.
ghost use Rattle.std.specs.Prelude.{◌≡◌, All, IfOk};
ghost use Rattle.std.specs.Vec.{vec_len};
ghost use Rattle.lp_base.specs.LinkMemory.{IsUnwritten};

use lp_base::{Bytes, MemLink, MemListen, MemSink, Texts};
use lp_serve::{ServeFault, serve};
use std::alloc::{AllocError, Global};
use std::sync::Wait;
use std::test::Fail;
use std::thread::Threads;

const ASKS: &str =
    "LOAD FREE\nNAME a\nROWS\n N cost\n G R1\nCOLUMNS\n x cost 1 R1 1\nRHS\n R1 1\nENDATA\nSOLVE\nHOW\nQUIT\n";

// The first solve is a cold one, and the second begins with the basis that the first has put on the board.
const FIRST: &str = "LOADED 1 1\nOPTIMAL 1\nHOW COLD PIVOTS 1 PUBLISHED 0\nBYE\n";

const SECOND: &str = "LOADED 1 1\nOPTIMAL 1\nHOW BASIS 0 PIVOTS 0 SAME\nBYE\n";

// A link on which these bytes come, three at a time. Its reads and writes with the listed numbers fail.
fn failing_link(
    alloc: Global,
    text: &[u8],
    read_fails: Vec<u64>,
    write_fails: Vec<u64>,
) -> Result<MemLink, AllocError>
    ensures { IfOk result IsUnwritten }
{
    let mut pieces = Texts::new(alloc);
    for piece in text.chunks(3) {
        pieces.push(Bytes::from_slice(alloc, piece)?)?;
    }
    Ok(MemLink::new(alloc, pieces, read_fails, write_fails))
}

// A link on which these bytes come.
fn link(alloc: Global, text: &[u8]) -> Result<MemLink, AllocError>
    ensures { IfOk result IsUnwritten }
{
    failing_link(alloc, text, Vec::new(alloc), Vec::new(alloc))
}

// Two links with the same commands.
fn two_links(alloc: Global) -> Result<Vec<MemLink>, AllocError>
    ensures { IfOk result (λ links. All IsUnwritten links.items) }
{
    let first = link(alloc, ASKS.as_bytes())?;
    let second = link(alloc, ASKS.as_bytes())?;
    Ok(std::vec![in alloc; first, second]?)
}

// One listener, on which these links come.
fn listener(alloc: Global, links: Vec<MemLink>) -> Result<Vec<MemListen>, AllocError>
    requires { All IsUnwritten links.items }
    ensures { IfOk result (λ nets. vec_len nets ≡ 1) }
{
    let net = MemListen::new(alloc, links, Vec::new(alloc))?;
    Ok(std::vec![in alloc; net]?)
}

// Two connections with the same commands are answered, the second from the basis of the first, and their ends are
// written.
#[test]
fn links_are_served(rt: HostRuntime) -> Result<(), Fail> {
    let alloc = rt.alloc();
    let mut nets = listener(alloc, two_links(alloc)?)?;
    let mut out = MemSink::new(alloc, Vec::new(alloc));
    serve(&rt, alloc, &mut nets, 2, 4, &mut out)?;
    let as_wanted = match nets[0].links_back() {
        [first, second] => [
            first.written() == FIRST.as_bytes(),
            second.written() == SECOND.as_bytes(),
            out.written() == b"1 1 DONE\n1 2 DONE\n".as_slice(),
        ],
        _ => [false; 3],
    };
    drop(nets);
    drop(out);
    assert_eq!(rt; as_wanted, [true; 3]);
    Ok(())
}

// A listener that gives no connection makes the server end with the fault, and nothing is written.
#[test]
fn no_link_comes(rt: HostRuntime) -> Result<(), Fail> {
    let alloc = rt.alloc();
    let mut nets = listener(alloc, Vec::new(alloc))?;
    let mut out = MemSink::new(alloc, Vec::new(alloc));
    let served = serve(&rt, alloc, &mut nets, 1, 4, &mut out);
    assert!(rt; matches!(served, Err(ServeFault::Accept)));
    assert!(rt; out.written().is_empty());
    Ok(())
}

// Whether a link is served with this line for its end, and what was written to it is a beginning of its replies, and
// not all.
fn ends_early<R: Threads + Wait + Sync>(
    rt: &R,
    alloc: Global,
    link: MemLink,
    line: &str,
) -> Result<bool, Fail>
    requires { IsUnwritten link }
{
    let mut nets = listener(alloc, std::vec![in alloc; link]?)?;
    let mut out = MemSink::new(alloc, Vec::new(alloc));
    serve(rt, alloc, &mut nets, 1, 4, &mut out)?;
    let is_early = match nets[0].links_back() {
        [back] => {
            FIRST.as_bytes().starts_with(back.written()) && back.written().len() < FIRST.len()
        }
        _ => false,
    };
    let is_said = out.written() == line.as_bytes();
    drop(nets);
    drop(out);
    Ok(is_early && is_said)
}

// Each of the reads up to QUIT fails in turn, and each of the writes.
#[test]
fn links_that_fail_end_early(rt: HostRuntime) -> Result<(), Fail> {
    let alloc = rt.alloc();
    let mut early = 0;
    for read in 1..ASKS.len().div_ceil(3) as u64 + 1 {
        let fails = std::vec![in alloc; read]?;
        let link = failing_link(alloc, ASKS.as_bytes(), fails, Vec::new(alloc))?;
        if !ends_early(&rt, alloc, link, "1 1 READ\n")? {
            return Ok(assert_eq!(rt; early, read));
        }
        early = read;
    }
    for write in 1..5u64 {
        let fails = std::vec![in alloc; write]?;
        let link = failing_link(alloc, ASKS.as_bytes(), Vec::new(alloc), fails)?;
        assert!(rt; ends_early(&rt, alloc, link, "1 1 WRITE\n")?);
    }
    Ok(())
}
