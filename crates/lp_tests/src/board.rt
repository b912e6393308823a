// Passes of one board on two threads.
ghost use Rattle.std.specs.Prelude.{◌≡◌};
ghost use Rattle.basis_board.specs.Id.{id_of};
ghost use Rattle.spec_board.specs.Words.{IsWellFormed};

use basis_board::{Board, Look, Pass, Put};
use lp_form::well_formed;
use spec_board::{BasisWords, ShapeWords};
use std::sync::atomic::{AtomicU64, Ordering};
use std::test::Fail;
use std::thread;
use std::thread::Threads;

// The words of a basis: one row with a lower limit alone, whose logical is at it,
// and one basic column with a lower bound alone.
fn words() -> BasisWords {
    let mut words = [0u64; 49];
    words[0] = 65537;
    words[1] = 5;
    words[25] = 4;
    words
}

// The shape of that basis: its first 25 words.
fn shape() -> ShapeWords {
    let mut shape = [0u64; 25];
    shape[0] = 65537;
    shape[1] = 5;
    shape
}

// The most turns that the second thread waits for the flag.
const TURNS: u32 = 100_000_000;

// Publishes the words, and then raises the flag. Gives the pass back, and what the publication came to.
fn first(board: &Board, mut pass: Pass, words: &BasisWords, flag: &AtomicU64) -> (Pass, Put)
    requires board { pass.board ≡ id_of board.now }
    requires formed { IsWellFormed words.now }
    ensures { result.0.board ≡ pass.board }
{
    let put = board.publish(&mut pass, words);
    flag.store(1, Ordering::SeqCst);
    (pass, put)
}

// Waits for the flag, looks for the shape, and publishes the words twice. Gives the pass back, and what each of the
// three came to.
fn second(
    board: &Board,
    mut pass: Pass,
    words: &BasisWords,
    flag: &AtomicU64,
) -> (Pass, Look, Put, Put)
    requires board { pass.board ≡ id_of board.now }
    requires formed { IsWellFormed words.now }
    ensures { result.0.board ≡ pass.board }
{
    for _ in 0..TURNS {
        if flag.load(Ordering::SeqCst) == 1 {
            break;
        }
        thread::yield_now();
    }
    let look = board.look(&mut pass, &shape());
    let put = board.publish(&mut pass, words);
    let full = board.publish(&mut pass, words);
    (pass, look, put, full)
}

// What both threads' calls came to: the publication of the first one, and the look and the publications of the second.
// Then what a look comes to by the pass that both passes are met into.
fn calls<R: Threads + Sync>(
    rt: &R,
    board: &Board,
    mut pass: Pass,
    words: &BasisWords,
) -> (Put, Look, Put, Put, Look)
    requires board { pass.board ≡ id_of board.now }
    requires share { pass.view.share ≡ 64 }
    requires formed { IsWellFormed words.now }
{
    let other = board.split(&mut pass);
    let flag = AtomicU64::new(0);
    let (mine, theirs) = thread::join(
        rt,
        || first(board, pass, words, &flag),
        || second(board, other, words, &flag),
    );
    let mut both = board.meet(mine.0, theirs.0);
    let last = board.look(&mut both, &shape());
    (mine.1, theirs.1, theirs.2, theirs.3, last)
}

// A look finds what another thread published before. A third publication on two places finds them full, and the pass
// that both passes are met into finds the newer place.
#[test]
fn one_thread_finds_what_another_published(rt: HostRuntime) -> Result<(), Fail> {
    let words = words();
    if !well_formed(&words) {
        return Ok(assert!(rt; false));
    }
    let (board, pass) = Board::new(rt.alloc(), 2)?;
    let (mine, look, put, full, last) = calls(&rt, &board, pass, &words);
    drop(board);
    assert!(rt; mine == Put::Published(0));
    assert!(rt; look == Look::Found(0, words));
    assert!(rt; put == Put::Published(1) && full == Put::Full(2));
    assert!(rt; last == Look::Found(1, words));
    Ok(())
}
