// Sessions and the places that they share.
ghost use Rattle.std.specs.Prelude.{◌≡◌, [], ◌∷◌, ◌++◌, List, length, IfOk};
ghost use Rattle.spec_world.specs.World.{ExactEvent};
ghost use Rattle.lp_core.specs.Core.{StepFits, Follows};

use crate::seat::Seat;
use lp_line::{Ask, Reply};
use spec_board::{BasisWords, Place};
use spec_world::{Event, StepEnd};
use std::alloc::{AllocError, Global};
use std::marker::Model;

/// Sessions, which have the numbers from 1 on, and the places that they share.
#[derive(Drop)]
pub struct World {
    seats: Vec<Seat>,
    places: Vec<Place<BasisWords>>,
    limit: u32,
}

impl Model for World {
    ghost use Rattle.std.specs.Prelude.{◌≤◌, length, All};
    ghost use Rattle.std.specs.Vec.{vec_capacity};
    ghost use Rattle.lp_core.specs.Core.{Core, IsBelow, AreFormed};

    ghost Value = { Core };

    ghost view = { λ w. record { held = w.seats.items; places = w.places.items; limit = w.limit } };

    ghost invariant = { λ w. (length w.places.items ≤ w.limit) × (w.limit ≤ vec_capacity w.places)
        × All (λ kept. IsBelow w.limit kept.step) w.seats.items × AreFormed w.places.items };
}

impl World {
    /// A world of `sessions` sessions that hold nothing and `places` places, of which none is claimed.
    pub fn new(alloc: Global, sessions: u32, places: u32) -> Result<Self, AllocError>
        ensures size { IfOk result (λ w. (length w.held ≡ sessions) × (w.limit ≡ places)) }
        ensures opening { IfOk result (λ w. Follows w []) }
    {
        let mut seats = Vec::with_capacity(alloc, sessions as usize)?;
        for _ in 0..sessions {
            seats.push(Seat::new())?;
        }
        let room = Vec::with_capacity(alloc, places as usize)?;
        Ok(World {
            seats,
            places: room,
            limit: places,
        })
    }

    /// What one event does. Whatever events came before, what is held goes on with the world to which all of them lead;
    /// and where the event is not enabled there, it is not taken. If memory runs out the reply is `Memory`.
    pub fn step(&mut self, alloc: Global, event: Event<Ask>) -> StepEnd<Reply>
        ensures fits { StepFits self.old event result self.new }
        ensures follows { (events : List ExactEvent) → Follows self.old events →
            Follows self.new (events ++ event ∷ []) }
        ensures size { (length self.new.held ≡ length self.old.held) × (self.new.limit ≡ self.old.limit) }
    {
        self.act(alloc, event)
    }

    // Takes one event: the session that it names takes its act, which may change that session and the places. The event
    // is not taken where there is no such session, or the act does not suit its stage.
    fn act(&mut self, alloc: Global, event: Event<Ask>) -> StepEnd<Reply>
        ensures fits { StepFits self.old event result self.new }
        ensures size { (length self.new.held ≡ length self.old.held) × (self.new.limit ≡ self.old.limit) }
    {
        let Event { session, act } = event;
        let number = session as usize;
        if number == 0 || number > self.seats.len() {
            drop(act);
            return StepEnd::Not;
        }
        let seat = &mut self.seats[number - 1];
        seat.act(alloc, session, self.limit, &mut self.places, act)
    }
}
