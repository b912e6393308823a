// A session and where it is in its ask.
ghost use Rattle.std.specs.Prelude.{◌≡◌, ◌≤◌, length, IfSome};
ghost use Rattle.std.specs.Vec.{vec_capacity};
ghost use Rattle.spec_board.specs.Words.{IsWellFormed};
ghost use Rattle.spec_board.specs.declared.place.Place.TheVariants as place_is;
ghost use Rattle.spec_board.specs.Reads as reads;
ghost use Rattle.spec_board.specs.Places.{with_place};
ghost use Rattle.spec_world.specs.declared.event.Act.TheVariants as acts;
ghost use Rattle.lp_core.specs.Core.{opening_kept, ActFits, IsBelow, AreFormed};
ghost use Rattle.lp_core.specs.Looks.{words_at, seen_at};

use crate::stage::{Stage, looking};
use lp_line::{Ask, Reply};
use lp_session::Session;
use spec_board::{BasisWords, Found, Place, Put, ShapeWords};
use spec_server::{Next, Started};
use spec_world::{Act, StepEnd};
use std::alloc::Global;
use std::marker::Model;

/// A session and where it is in its ask.
#[derive(Drop)]
pub struct Seat {
    session: Session,
    stage: Stage,
}

impl Model for Seat {
    ghost use Rattle.lp_core.specs.Core.{Kept, step_of, Agrees};

    ghost Value = { Kept };

    ghost view = { λ h. record { state = h.session.state; step = step_of h.stage h.session.awaits } };

    ghost invariant = { λ h. Agrees h.stage h.session.awaits };
}

// The words of a place that is done; none of one that is only claimed, or not even that.
fn words_of(places: &[Place<BasisWords>], place: u32) -> Option<BasisWords>
    ensures { result ≡ words_at places.now place }
{
    if place as usize >= places.len() {
        return None;
    }
    match places[place as usize] {
        Place::Claimed(_owner) => None,
        Place::Done(words) => Some(words),
    }
}

// Writes the words into a claimed place, which is done then. A number past the claimed places changes nothing.
fn write(places: &mut Vec<Place<BasisWords>>, place: u32, words: BasisWords)
    ensures items { places.new.items ≡ with_place places.old.items place (place_is.Done words) }
    ensures len { length places.new.items ≡ length places.old.items }
    ensures capacity { vec_capacity places.new ≡ vec_capacity places.old }
{
    if (place as usize) < places.len() {
        places[place as usize] = Place::Done(words);
    }
}

// Whether the words begin with the shape.
fn has_shape(shape: &ShapeWords, words: &BasisWords) -> bool
    ensures { result ≡ reads.has_shape shape.now words.now }
{
    words[..25] == shape[..]
}

// The next stage of a look for a shape that has read a place: with words of that shape it ends there, else it goes on
// to the place before it, or ends with nothing found where there is none.
fn seen(shape: ShapeWords, place: u32, read: Option<BasisWords>) -> Stage
    ensures { result ≡ seen_at shape place read }
{
    match read {
        Some(words) if has_shape(&shape, &words) => Stage::Solving(Some(Found { place, words })),
        _ => looking(shape, place),
    }
}

impl Seat {
    /// A session that holds nothing, and of which nothing is asked.
    pub fn new() -> Self
        ensures { result ≡ opening_kept }
    {
        Seat {
            session: Session::new(),
            stage: Stage::Idle,
        }
    }

    /// The session takes this act, which may change the session and the places. An act that does not suit its stage is
    /// not taken.
    pub fn act(
        &mut self,
        alloc: Global,
        me: u32,
        limit: u32,
        places: &mut Vec<Place<BasisWords>>,
        act: Act<Ask>,
    ) -> StepEnd<Reply>
        requires below { IsBelow limit self.old.step }
        requires few { length places.old.items ≤ limit }
        requires room { limit ≤ vec_capacity places.old }
        requires formed { AreFormed places.old.items }
        ensures fits { ActFits limit me self.old places.old.items act result self.new places.new.items }
        ensures below { IsBelow limit self.new.step }
        ensures few { length places.new.items ≤ limit }
        ensures room { limit ≤ vec_capacity places.new }
        ensures formed { AreFormed places.new.items }
    {
        match act {
            Act::Ask(ask) => self.ask(alloc, me, limit, places.as_slice(), ask),
            Act::Count => self.count(me, limit, places.as_slice()),
            Act::See(place) => self.see(me, limit, places.as_slice(), place),
            Act::Work => self.work(alloc, me, limit, places.as_slice()),
            Act::Claim => self.claim(me, limit, places),
            Act::Done => self.done(me, limit, places),
        }
    }

    // The session is asked, if it is in no request; else the act is not taken. It replies, or goes on with a look for
    // the shape of its model's form.
    fn ask(
        &mut self,
        alloc: Global,
        me: u32,
        limit: u32,
        places: &[Place<BasisWords>],
        ask: Ask,
    ) -> StepEnd<Reply>
        ensures fits { ActFits limit me self.old places.now (acts.Ask ask) result self.new places.now }
        ensures below { IsBelow limit self.old.step → IsBelow limit self.new.step }
    {
        let Stage::Idle = self.stage else {
            drop(ask);
            return StepEnd::Not;
        };
        match self.session.start(alloc, ask) {
            Started::Reply(reply) => StepEnd::Replied(me, reply),
            Started::Look(shape) => {
                self.stage = Stage::Counts(shape);
                StepEnd::Quiet
            }
        }
    }

    // Where a look or a put begins, the session reads how many places are claimed; else the act is not taken. The look
    // goes on from the newest place, or ends where there is none. The put goes on to claim the next place; where all
    // `limit` places are claimed, the session replies instead.
    fn count(&mut self, me: u32, limit: u32, places: &[Place<BasisWords>]) -> StepEnd<Reply>
        requires { length places.now ≤ limit }
        ensures fits { ActFits limit me self.old places.now acts.Count result self.new places.now }
        ensures below { IsBelow limit self.old.step → IsBelow limit self.new.step }
    {
        let count = places.len() as u32;
        match self.stage {
            Stage::Counts(shape) => {
                self.stage = looking(shape, count);
                StepEnd::Quiet
            }
            Stage::Puts(words) => {
                if count == limit {
                    let reply = self.session.put(Put::Full(count));
                    self.stage = Stage::Idle;
                    return StepEnd::Replied(me, reply);
                }
                self.stage = Stage::Claims(words, count);
                StepEnd::Quiet
            }
            _ => StepEnd::Not,
        }
    }

    // The session reads the place, if this is the next place of its look-up; else the act is not taken.
    fn see(&mut self, me: u32, limit: u32, places: &[Place<BasisWords>], at: u32) -> StepEnd<Reply>
        requires formed { AreFormed places.now }
        ensures fits { ActFits limit me self.old places.now (acts.See at) result self.new places.now }
        ensures below { IsBelow limit self.old.step → IsBelow limit self.new.step }
    {
        let Stage::Sees(shape, place) = self.stage else {
            return StepEnd::Not;
        };
        if at != place {
            return StepEnd::Not;
        }
        self.stage = seen(shape, place, words_of(places, place));
        StepEnd::Quiet
    }

    // Where the session's look has ended, the session solves with what the look found; else the act is not taken. It
    // then has its reply, or goes on to publish the words of its final basis.
    fn work(
        &mut self,
        alloc: Global,
        me: u32,
        limit: u32,
        places: &[Place<BasisWords>],
    ) -> StepEnd<Reply>
        ensures fits { ActFits limit me self.old places.now acts.Work result self.new places.now }
        ensures below { IsBelow limit self.old.step → IsBelow limit self.new.step }
    {
        let Stage::Solving(found) = self.stage else {
            return StepEnd::Not;
        };
        match self.session.found(alloc, found) {
            Next::Reply(reply) => {
                self.stage = Stage::Idle;
                StepEnd::Replied(me, reply)
            }
            Next::Publish(words) => {
                self.stage = Stage::Puts(words);
                StepEnd::Quiet
            }
        }
    }

    // Where a claim is due, the session claims the next place, if as many are claimed as it counted. Else another
    // session was quicker, and it gives the reply of its solve. Where no claim is due, the act is not taken.
    fn claim(&mut self, me: u32, limit: u32, places: &mut Vec<Place<BasisWords>>) -> StepEnd<Reply>
        requires below { IsBelow limit self.old.step }
        requires few { length places.old.items ≤ limit }
        requires room { limit ≤ vec_capacity places.old }
        requires formed { AreFormed places.old.items }
        ensures fits { ActFits limit me self.old places.old.items acts.Claim result self.new places.new.items }
        ensures below { IsBelow limit self.new.step }
        ensures few { length places.new.items ≤ limit }
        ensures room { limit ≤ vec_capacity places.new }
        ensures formed { AreFormed places.new.items }
    {
        let Stage::Claims(words, count) = self.stage else {
            return StepEnd::Not;
        };
        let claimed = places.len() as u32;
        if claimed != count {
            let reply = self.session.put(Put::Raced(claimed));
            self.stage = Stage::Idle;
            return StepEnd::Replied(me, reply);
        }
        places.push_reserved(Place::Claimed(me));
        self.stage = Stage::Writes(words, count);
        StepEnd::Quiet
    }

    // Where the session has claimed a place, it writes its words there and gives the reply of its solve; the place is
    // done then. Where it has claimed none, the act is not taken.
    fn done(&mut self, me: u32, limit: u32, places: &mut Vec<Place<BasisWords>>) -> StepEnd<Reply>
        requires room { limit ≤ vec_capacity places.old }
        requires few { length places.old.items ≤ limit }
        requires formed { AreFormed places.old.items }
        ensures fits { ActFits limit me self.old places.old.items acts.Done result self.new places.new.items }
        ensures below { IsBelow limit self.old.step → IsBelow limit self.new.step }
        ensures few { length places.new.items ≤ limit }
        ensures room { limit ≤ vec_capacity places.new }
        ensures formed { AreFormed places.new.items }
    {
        let Stage::Writes(words, place) = self.stage else {
            return StepEnd::Not;
        };
        write(places, place, words);
        let reply = self.session.put(Put::Published(place));
        self.stage = Stage::Idle;
        StepEnd::Replied(me, reply)
    }
}
