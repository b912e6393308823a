// The board: places on which bases are published, and found again.
ghost use Rattle.std.specs.Prelude.{◌≡◌, ◌<◌, ◌≤◌, ◌*◌, ◌+◌, ◌++◌, [], Some, None, IfOk, IfSome, IfNone};
ghost use Rattle.spec_board.specs.Words.{IsWellFormed};
ghost use Rattle.basis_board.specs.Board.{first_view, cut_left, cut_right, storing};

use crate::seats::{Pass, Sight, Words};
use crate::steps::{Claims, Counts, Finishes, Joins, Learns, Parts, Reads, Sees, Writes};
use atomic_table::Seat;
use spec_board::{BasisWords, Put, ShapeWords};
use std::alloc::{AllocError, Global};

/// A fixed number of places, each of which takes the words of one basis and never changes afterwards.
#[derive(Drop)]
pub struct Board {
    table: Words,
    places: u32,
    pub ghost sized: { table.shared.table_id.words ≡ 50 * places + 1 },
    pub ghost keyed: { table.shared.key ≡ places },
    pub ghost small: { places ≤ 1024 },
}

/// What a look found.
#[derive(Clone, Copy, PartialEq, Eq)]
pub enum Look {
    /// The newest done place of the shape, and its words.
    Found(u32, BasisWords),
    /// None of the places claimed, so many, was read as done with this shape.
    NoneReady(u32),
}

impl Board {
    ghost use Rattle.basis_board.specs.Id.{id_of};
    ghost use Rattle.basis_board.specs.Calls.{known, IsSameSeat, Puts, Meets, PassesBy, Finds, Looks};
    ghost use Rattle.basis_board.specs.Rule.{Consistent};
    ghost use Rattle.basis_board.specs.Known.{notes_of};
    ghost use Rattle.basis_board.specs.Moments.{Later, NotesMore, WereTrue, IsOneLog};

    /// A board with so many places, none of which is claimed, and a pass that is the only one of it; an error where
    /// memory is refused.
    pub fn new(alloc: Global, places: u32) -> Result<(Board, Pass), AllocError>
        requires { (0 < places) × (places ≤ 1024) }
        ensures { IfOk result (λ r. (r.0.places ≡ places) × (r.1.board ≡ id_of r.0)
            × (r.1.view ≡ first_view places) × (r.1.moments ≡ [])) }
    {
        let words = std::vec![in alloc; 0u64; 50 * places as usize + 1]?;
        let (table, seat) = Words::of_words(alloc, words.as_slice(), &u64::from(places))?;
        Ok((Board { table, places }, Pass { seat }))
    }

    /// A second pass, which has seen what this one has. It takes one part of this one's share of the right to the
    /// board, and no memory.
    pub fn split(&self, pass: &mut Pass) -> Pass
        requires board { pass.old.board ≡ id_of self.now }
        requires share { 1 < (pass.old.view).share }
        ensures old { (pass.new.board ≡ pass.old.board) × (pass.new.view ≡ cut_left (pass.old.view)) }
        ensures new { (result.board ≡ pass.old.board) × (result.view ≡ cut_right (pass.old.view)) }
        ensures consistent { Consistent pass.new.view × Consistent result.view }
        ensures moments { (pass.new.moments ≡ pass.old.moments) × (result.moments ≡ []) }
        ensures then { WereTrue pass.new.moments (pass.new.view).reads × WereTrue result.moments (result.view).reads }
    {
        let seat = self.table.shared.split_seat::<Parts>(&mut pass.seat);
        Pass { seat }
    }

    /// One pass in place of two, which has seen what either has, and has both shares of the right to the board.
    pub fn meet(&self, a: Pass, b: Pass) -> Pass
        requires board { (a.board ≡ id_of self.now) × (b.board ≡ id_of self.now) }
        ensures board { result.board ≡ id_of self.entry.now }
        ensures view { Meets a.view b.view result.view }
        ensures consistent { Consistent result.view }
        ensures moments { result.moments ≡ b.moments ++ a.moments }
        ensures log { (result.view).share ≡ 64 → IsOneLog (notes_of result) }
        ensures then { WereTrue result.moments (result.view).reads }
    {
        let Pass { mut seat } = a;
        let Pass { seat: other } = b;
        self.table.shared.join_seat::<Joins>(&mut seat, other);
        self.table.shared.load::<Learns>(&mut seat, 0);
        Pass { seat }
    }

    // Stores the 49 words of a basis in a place that this seat's pass has claimed, and does not mark it as done.
    fn fill(&self, seat: &mut Seat<u8, Sight>, place: u64, words: &BasisWords)
        requires board { (seat.old.table_id ≡ id_of self.now) × (place < self.now.places) }
        requires view { ((known seat.old).held ≡ Some (place, [])) × (0 < (known seat.old).share) }
        ensures stored { IsSameSeat seat.old seat.new × (known seat.new ≡ storing (known seat.old) place words.now) }
        ensures moments { NotesMore seat.old.me.0.moments seat.new.me.0.moments }
    {
        let first = 50 * place as usize + 1;
        for i in 0..49 {
            self.table.shared.store::<Writes>(seat, first + i, words[i]);
        }
    }

    /// Claims the next place, stores the words there and marks it as done, if there is a free one and no other pass
    /// takes it in between: one try. Else it says that the board is full, or that another pass was quicker, and how
    /// many places were claimed.
    pub fn publish(&self, pass: &mut Pass, words: &BasisWords) -> Put
        requires board { pass.old.board ≡ id_of self.now }
        requires formed { IsWellFormed words.now }
        ensures board { pass.new.board ≡ pass.old.board }
        ensures put { Puts (pass.old.view) words.now result (pass.new.view) }
        ensures consistent { Consistent pass.new.view }
        ensures share { (pass.new.view).share ≡ (pass.old.view).share }
        ensures moments { NotesMore pass.old.moments pass.new.moments }
        ensures then { WereTrue pass.new.moments (pass.new.view).reads }
    {
        let shared = &self.table.shared;
        let count = shared.load::<Counts>(&mut pass.seat, 0);
        if count >= u64::from(self.places) {
            return Put::Full(count as u32);
        }
        let found = shared.compare_exchange::<Claims>(&mut pass.seat, 0, count, count + 1);
        if found != count {
            return Put::Raced(found as u32);
        }
        self.fill(&mut pass.seat, count, words);
        shared.store::<Finishes>(&mut pass.seat, 50 * count as usize + 50, 1);
        Put::Published(count as u32)
    }

    // The words of a place, if it is read as done and as having this shape; else none.
    fn see(&self, seat: &mut Seat<u8, Sight>, place: u64, shape: &ShapeWords) -> Option<BasisWords>
        requires board { (seat.old.table_id ≡ id_of self.now) × (place < self.now.places) }
        requires share { 0 < (known seat.old).share }
        ensures seat { IsSameSeat seat.old seat.new }
        ensures consistent { Consistent (known seat.new) }
        ensures some { IfSome result (λ xs. Finds shape.now place xs (known seat.old) (known seat.new)) }
        ensures none { IfNone result (PassesBy shape.now place (known seat.old) (known seat.new)) }
        ensures later { Later seat.old.me.0 seat.new.me.0 }
    {
        let shared = &self.table.shared;
        let first = 50 * place as usize + 1;
        if shared.load::<Sees>(seat, first + 49) == 0 {
            return None;
        }
        let mut words = [0u64; 49];
        for i in 0..25 {
            words[i] = shared.load::<Reads>(seat, first + i);
        }
        if words[..25] != shape[..] {
            return None;
        }
        for j in 25..49 {
            words[j] = shared.load::<Reads>(seat, first + j);
        }
        Some(words)
    }

    // Looks at the places from the newest down to the first that is done and of this shape. Without one it gives how
    // many are claimed.
    fn look_down(&self, seat: &mut Seat<u8, Sight>, shape: &ShapeWords) -> Look
        requires board { (seat.old.table_id ≡ id_of self.now) × ((known seat.old).places ≡ self.now.places) }
        requires idle { ((known seat.old).held ≡ None) × (0 < (known seat.old).share) }
        ensures seat { IsSameSeat seat.old seat.new }
        ensures look { Looks shape.now (known seat.old) result (known seat.new) }
        ensures later { Later seat.old.me.0 seat.new.me.0 }
        ensures consistent { Consistent (known seat.new) }
    {
        let count = self.table.shared.load::<Counts>(seat, 0);
        let mut place = count;
        while place > 0 {
            place -= 1;
            if let Some(words) = self.see(seat, place, shape) {
                return Look::Found(place as u32, words);
            }
        }
        Look::NoneReady(count as u32)
    }

    /// The newest place that is read as done with this shape, with its words; else how many places are claimed. It
    /// reads each place at most once.
    pub fn look(&self, pass: &mut Pass, shape: &ShapeWords) -> Look
        requires { pass.old.board ≡ id_of self.now }
        ensures board { pass.new.board ≡ pass.old.board }
        ensures look { Looks shape.now pass.old.view result pass.new.view }
        ensures consistent { Consistent pass.new.view }
        ensures share { (pass.new.view).share ≡ (pass.old.view).share }
        ensures moments { NotesMore pass.old.moments pass.new.moments }
        ensures then { WereTrue pass.new.moments (pass.new.view).reads }
    {
        self.look_down(&mut pass.seat, shape)
    }
}
