// Two links over loopback, each served by a worker of its own. Each client waits for what the other one reads, and the
// one that solves last begins with the basis that the other one's worker has published.
use lp_base::MemSink;
use lp_net::TcpNet;
use lp_serve::serve;
use std::io::{Read, Write};
use std::net::{Net, TcpListener, TcpStream};
use std::sync::atomic::{AtomicU64, Ordering};
use std::test::Fail;
use std::thread::Threads;
use std::time::{Clock, Duration};
use std::{io, thread};

const LOAD: &str =
    "LOAD FREE\nNAME a\nROWS\n N cost\n G R1\nCOLUMNS\n x cost 1 R1 1\nRHS\n R1 1\nENDATA\n";

// How the first answer is found, and the second, whose solve begins when the first client has its reply.
const PUBLISHES: &str = "HOW COLD PIVOTS 1 PUBLISHED 0\n";

const FINDS: &str = "HOW BASIS 0 PIVOTS 0 SAME\n";

// The most turns that a client waits for the other, of a millisecond or more.
const TURNS: u32 = 10_000;

// The most seconds that a client waits for a reply.
const PATIENCE: u64 = 30;

// What a client has read.
#[derive(Drop)]
struct Heard {
    loaded: AtomicU64,
    solved: AtomicU64,
}

impl Heard {
    // A client that has read nothing.
    fn new() -> Self {
        Heard {
            loaded: AtomicU64::new(0),
            solved: AtomicU64::new(0),
        }
    }
}

// Whether the awaited flag is raised within `TURNS` turns, of a millisecond or more each.
fn comes<R: Clock>(rt: &R, awaited: &AtomicU64) -> bool {
    for _ in 0..TURNS {
        if awaited.load(Ordering::SeqCst) == 1 {
            return true;
        }
        thread::sleep(rt, Duration::from_millis(1));
    }
    false
}

// Whether the next bytes of the stream are these.
fn hears(mut stream: &TcpStream, reply: &str) -> bool {
    let mut byte = [0];
    for expected in reply.as_bytes() {
        if stream.read_exact(&mut byte).is_err() || byte[0] != *expected {
            return false;
        }
    }
    true
}

// Sends the text on the stream, and says whether the next bytes that come are this reply.
fn is_answered(mut stream: &TcpStream, text: &str, reply: &str) -> bool {
    stream.write_all(text.as_bytes()).is_ok() && hears(stream, reply)
}

// Talks as a client, which solves its model only once what it waits for has come, and asks how its answer was found.
// Says whether it read every reply; it closes its link at the first that it did not.
fn talk<R: Clock>(
    rt: &R,
    stream: TcpStream,
    heard: &Heard,
    awaited: &AtomicU64,
    how: &str,
) -> bool {
    if !is_answered(&stream, LOAD, "LOADED 1 1\n") {
        return false;
    }
    heard.loaded.store(1, Ordering::SeqCst);
    if !comes(rt, awaited) || !is_answered(&stream, "SOLVE\n", "OPTIMAL 1\n") {
        return false;
    }
    heard.solved.store(1, Ordering::SeqCst);
    is_answered(&stream, "HOW\n", how) && is_answered(&stream, "QUIT\n", "BYE\n")
}

// Two clients talk at the same time, each on a stream of its own. Says of each whether it read every reply.
fn talk_both<R: Threads + Clock + Sync>(rt: &R, one: TcpStream, two: TcpStream) -> (bool, bool) {
    let (heard_one, heard_two) = (Heard::new(), Heard::new());
    thread::join(
        rt,
        || talk(rt, one, &heard_one, &heard_two.loaded, PUBLISHES),
        || talk(rt, two, &heard_two, &heard_one.solved, FINDS),
    )
}

// A socket that listens on loopback, and the stream of a client that it has not accepted yet. Each read of the client
// waits at most `PATIENCE` seconds.
fn listening<R>(rt: &R) -> io::Result<(TcpListener, TcpStream)>
where
    R: Net<Listener = TcpListener, Stream = TcpStream>,
{
    let socket = TcpListener::bind(rt, "127.0.0.1:0")?;
    let stream = TcpStream::connect(rt, socket.local_addr()?)?;
    stream.set_read_timeout(Some(Duration::from_secs(PATIENCE)))?;
    Ok((socket, stream))
}

// Two connections over loopback are served at the same time: each client waits for the other one, and both end.
#[test]
fn two_links_are_served_beside_each_other(rt: HostRuntime) -> Result<(), Fail> {
    let alloc = rt.alloc();
    let (first, one) = listening(&rt)?;
    let (second, two) = listening(&rt)?;
    let mut nets = vec![in alloc;
        TcpNet::new(&rt, Some(&first), 1),
        TcpNet::new(&rt, Some(&second), 2),
    ]?;
    let mut out = MemSink::new(alloc, Vec::new(alloc));
    let (served, (one_did, two_did)) = thread::join(
        &rt,
        || serve(&rt, alloc, &mut nets, 1, 4, &mut out),
        || talk_both(&rt, one, two),
    );
    let is_written = out.written() == b"1 1 DONE\n2 1 DONE\n".as_slice();
    drop(out);
    drop(nets);
    drop(first);
    drop(second);
    assert_eq!(rt; [one_did, two_did, served.is_ok(), is_written], [true; 4]);
    Ok(())
}
