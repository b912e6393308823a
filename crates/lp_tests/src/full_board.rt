// Sixteen passes that publish on one place, each on a thread of its own.
ghost use Rattle.std.specs.Prelude.{◌≡◌, All, IfOk};
ghost use Rattle.basis_board.specs.Id.{id_of};
ghost use Rattle.spec_board.specs.Words.{IsWellFormed};

use basis_board::{Board, Look, Pass, Put};
use lp_form::well_formed;
use spec_board::BasisWords;
use std::alloc::{AllocError, Global};
use std::test::Fail;
use std::thread;
use std::thread::Threads;

/// How many passes publish, each on a thread of its own.
const PASSES: usize = 16;

// A pass, and what its publication and its look came to.
#[derive(Drop)]
struct Publisher {
    pass: Pass,
    put: Option<Put>,
    has_found: bool,
}

impl Publisher {
    // A publisher that has done nothing yet.
    fn new(pass: Pass) -> Self
        ensures { result.pass ≡ pass }
    {
        Publisher {
            pass,
            put: None,
            has_found: false,
        }
    }

    // In its first turn publishes the words, and notes what that came to. In each later one looks for the basis with
    // these words, and notes whether it is found at place 0.
    fn turn(&mut self, board: &Board, words: &BasisWords)
        requires board { self.old.pass.board ≡ id_of board.now }
        requires formed { IsWellFormed words.now }
        ensures { self.new.pass.board ≡ id_of board.now }
    {
        if self.put.is_none() {
            self.put = Some(board.publish(&mut self.pass, words));
            return;
        }
        let mut shape = [0u64; 25];
        shape.copy_from_slice(&words[..25]);
        self.has_found = board.look(&mut self.pass, &shape) == Look::Found(0, *words);
    }

    // Whether its publication took place 0.
    fn was_first(&self) -> bool {
        self.put == Some(Put::Published(0))
    }

    // Whether its publication found the place taken, before its claim or at it.
    fn was_refused(&self) -> bool {
        self.put == Some(Put::Full(1)) || self.put == Some(Put::Raced(1))
    }
}

// As many publishers as there are passes: one for the pass, and others for those that are split off it.
fn publishers(alloc: Global, board: &Board, mut first: Pass) -> Result<Vec<Publisher>, AllocError>
    requires board { first.board ≡ id_of board.now }
    requires share { first.view.share ≡ 64 }
    ensures { IfOk result (λ all. All (λ one. one.pass.board ≡ id_of board.now) all.items) }
{
    let mut all = Vec::new(alloc);
    for index in 1..PASSES {
        let pass = board.split(&mut first);
        all.push(Publisher::new(pass))?;
    }
    all.push(Publisher::new(first))?;
    Ok(all)
}

// Each publisher takes a turn, on a thread of its own.
fn turn_all<R: Threads + Sync>(rt: &R, board: &Board, words: &BasisWords, all: &mut [Publisher])
    requires boards { All (λ one. one.pass.board ≡ id_of board.now) all.old }
    requires formed { IsWellFormed words.now }
    ensures { All (λ one. one.pass.board ≡ id_of board.now) all.new }
{
    thread::for_each_mut(
        rt,
        all,
        PASSES,
        &|_, one: &mut Publisher| one.turn(board, words),
    );
}

// How many publishers took place 0, how many were refused, and how many have found the words.
fn counts(all: &[Publisher]) -> (usize, usize, usize) {
    let (mut first, mut refused, mut found) = (0usize, 0usize, 0usize);
    for one in all {
        first = first.saturating_add(one.was_first() as usize);
        refused = refused.saturating_add(one.was_refused() as usize);
        found = found.saturating_add(one.has_found as usize);
    }
    (first, refused, found)
}

// The counts where each publisher publishes the words, and then each looks for them.
fn counts_of<R: Threads + Sync>(
    rt: &R,
    alloc: Global,
    words: &BasisWords,
) -> Result<(usize, usize, usize), AllocError>
    requires { IsWellFormed words.now }
{
    let (board, pass) = Board::new(alloc, 1)?;
    let mut all = publishers(alloc, &board, pass)?;
    turn_all(rt, &board, words, all.as_mut_slice());
    turn_all(rt, &board, words, all.as_mut_slice());
    Ok(counts(&all))
}

// Of sixteen publications on one place one wins, the others are refused, and then every pass finds the words.
#[test]
fn one_of_sixteen_passes_publishes_and_all_find(rt: HostRuntime) -> Result<(), Fail> {
    // one row with a lower limit alone, whose logical is at it, and one basic column with a lower bound alone
    let mut words = [0u64; 49];
    words[0] = 65537;
    words[1] = 5;
    words[25] = 4;
    if !well_formed(&words) {
        return Ok(assert!(rt; false));
    }
    let counts = counts_of(&rt, rt.alloc(), &words)?;
    assert_eq!(rt; counts, (1, PASSES - 1, PASSES));
    Ok(())
}
