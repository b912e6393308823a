//! Sessions that share places, as a world of events, and that each runs alone in it, whatever their order.
//!
//! | Item | What it is | Where |
//! |---|---|---|
//! | `Act`, `Event` | what a session does at once | src/event |
//! | `StepEnd` | what comes of it | src/event |
//! | `Server` | how many sessions and places there are | specs/World |
//! | `Stage` | where a session is in its ask | specs/World |
//! | `World`, `WorldStep`, `WorldRun` | the world, one event, and a list of events | specs/World |
//! | `IsSound` | what holds of each world that events lead to | specs/Sound |
//! | `PutsBasis` | that a session published the basis of its solve | specs/Sound |
//! | `AreKeptEvents` | events whose models and edits may be kept | specs/Sound |
//! | `ReadsNow`, `EndFits` | what holds of each event | specs/Sound |
//! | `Together` | worlds in which the events of each ask stand together | specs/Together |
//!
//! An event is what one session does while no other does anything: it is asked, reads how many places are claimed,
//! reads one place, solves, claims a place, or writes it. So a list of events is one order of all that many sessions do
//! at the same time.
#![tactic(auto)]

ghost use Rattle.std.specs.Prelude.{◌≡◌, ◌↔◌, ℕ, List, map, Some, false};
ghost use Rattle.spec_board.specs.Words.{IsWellFormed};
ghost use Rattle.spec_board.specs.declared.place.Place.TheVariants as place;
ghost use Rattle.spec_board.specs.Reads.{Words};
ghost use Rattle.spec_board.specs.Places.{place_at};
ghost use Rattle.spec_server.specs.Exchanges.{Exchange, RunFits};
ghost use Rattle.spec_truth.specs.Agree.{HasMemory, RepliesAgree};
ghost use Rattle.spec_world.specs.declared.event.StepEnd.TheVariants.{Not};
ghost use Rattle.spec_world.specs.World.{Server, ExactEvent, ExactEnd, World, opening_world, is_enabled};
ghost use Rattle.spec_world.specs.World.{WorldStep, WorldRun};
ghost use Rattle.spec_world.specs.Sound.{IsSound, AreKeptEvents, ReadsNow, EndFits};
ghost use Rattle.spec_world.specs.Together.{Together, HaveSessions};

mod event;

pub use event::{Act, Event, StepEnd};

/// Over every list of events, what each session was asked, read and replied is a run of the one-session machine. All
/// reads stand in one order, in which the places answer each as they are then.
pub fn sessions_run_alone()
    ensures { (server : Server) (events : List ExactEvent) (world : World) →
        WorldRun server opening_world events world → IsSound server world }
{}

/// An event makes one read of the places at most, and these answer it as they are at that event. No other session
/// changes.
pub fn reads_are_answered()
    ensures { (server : Server) (events : List ExactEvent) (old : World) (event : ExactEvent) (end : ExactEnd)
        (new : World) →
        WorldRun server opening_world events old → WorldStep server old event end new → ReadsNow server old event new }
{}

/// A place that is done stays so, with its words.
pub fn done_places_stay()
    ensures { (server : Server) (before : List ExactEvent) (old : World) (events : List ExactEvent) (new : World)
        (k : ℕ) (words : Words) →
        WorldRun server opening_world before old → WorldRun server old events new →
        place_at old.places k ≡ Some (place.Done words) → place_at new.places k ≡ Some (place.Done words) }
{}

/// Where the models and edits that events ask for may be kept, each place that is done has the well-formed words of a
/// basis.
pub fn done_places_are_well_formed()
    ensures { (server : Server) (events : List ExactEvent) (world : World) (k : ℕ) (words : Words) →
        AreKeptEvents events → WorldRun server opening_world events world →
        place_at world.places k ≡ Some (place.Done words) → IsWellFormed words }
{}

/// An event is refused exactly where it is not enabled. An event that is taken ends as is reported: it ends a request
/// of its session with a reply, or ends none.
pub fn events_are_told()
    ensures not { (server : Server) (old : World) (event : ExactEvent) (end : ExactEnd) (new : World) →
        WorldStep server old event end new → (end ≡ Not) ↔ (is_enabled server old event ≡ false) }
    ensures ends { (server : Server) (events : List ExactEvent) (old : World) (event : ExactEvent) (end : ExactEnd)
        (new : World) →
        WorldRun server opening_world events old → WorldStep server old event end new → EndFits old event end new }
{}

/// Each event can happen: one that is not enabled by leaving all as it is, each other by its act.
pub fn events_happen()
    ensures { (server : Server) (old : World) (event : ExactEvent) →
        (end : ExactEnd) × (new : World) × WorldStep server old event end new }
{}

/// In two worlds, perhaps of two servers, a session that was asked the same replied the same, if memory ran out for it
/// in neither. Replies may differ to `HOW` and `CERT`; one may answer where the other is `PAST` or `SPENT`; and of two
/// exact solves one may be `OPEN`, or their lines behind the first may differ.
pub fn replies_agree()
    ensures { (server server' : Server) (events events' : List ExactEvent) (world world' : World) (session : ℕ) →
        WorldRun server opening_world events world → WorldRun server' opening_world events' world' →
        map (λ (x : Exchange). x.ask) (world.sessions session).finished
        ≡ map (λ (x : Exchange). x.ask) (world'.sessions session).finished →
        HasMemory (world.sessions session).finished → HasMemory (world'.sessions session).finished →
        RepliesAgree (world.sessions session).finished (world'.sessions session).finished }
{}

/// Exchanges of the server's sessions that are answered one after the other are those of a world in which the events of
/// each request stand together. Those of such a world are answered so.
pub fn one_worker_is_a_world()
    ensures worlds { (server : Server) (xs : List Exchange) → RunFits server.places xs → HaveSessions server xs →
        (world : World) × Together server opening_world xs world }
    ensures fits { (server : Server) (xs : List Exchange) (world : World) → Together server opening_world xs world →
        RunFits server.places xs }
{}
