// Sessions of a world that publish at the same time.
ghost use Rattle.std.specs.Prelude.{◌↔◌, IsTrue};
ghost use Rattle.spec_model.specs.Kept.{IsUsual};

use crate::lifted_bases::model_of;
use lp_core::World;
use lp_line::{Ask, Plain, Reply};
use lp_model::{Model, USUAL_LIMITS, UsualModel};
use spec_board::Put;
use spec_server::Publication;
use spec_world::{Act, Event, StepEnd};
use std::alloc::{AllocError, Global};
use std::test::Fail;

// One pivot away from its optimum.
const MODEL: &str = "NAME a\nROWS\n N cost\n G R1\nCOLUMNS\n x cost 1 R1 1\nRHS\n R1 1\nENDATA\n";

// Whether a session may hold the model.
fn is_usual(model: &Model) -> bool
    ensures { IsTrue result ↔ IsUsual model.now }
{
    model.rows() <= USUAL_LIMITS.rows && model.cols() <= USUAL_LIMITS.columns
}

// The model of the test as one that a session may hold; none where its text spells no usual model.
fn held(alloc: Global) -> Result<Option<UsualModel>, AllocError> {
    let Some(model) = model_of(alloc, MODEL)? else {
        return Ok(None);
    };
    if is_usual(&model) {
        return Ok(Some(UsualModel::new(model)));
    }
    drop(model);
    Ok(None)
}

// The world takes one act of the session. What it replies is dropped.
fn step(alloc: Global, world: &mut World, session: u32, act: Act<Ask>) {
    let _ = world.step(alloc, Event { session, act });
}

// The session loads the model.
fn load(alloc: Global, world: &mut World, session: u32) -> Result<(), AllocError> {
    if let Some(model) = held(alloc)? {
        step(alloc, world, session, Act::Ask(Ask::Loaded(model)));
    }
    Ok(())
}

// The world takes the acts of a session's solve, up to the claim of a place. The act that sees place 0 is refused where
// place 0 is not claimed.
fn come_to_the_claim(alloc: Global, world: &mut World, session: u32) {
    step(alloc, world, session, Act::Ask(Ask::Plain(Plain::Solve)));
    step(alloc, world, session, Act::Count);
    step(alloc, world, session, Act::See(0));
    step(alloc, world, session, Act::Work);
    step(alloc, world, session, Act::Count);
}

// What became of the basis of the session's last answer; none if no place was tried for it.
fn published(alloc: Global, world: &mut World, session: u32) -> Option<Put> {
    let act = Act::Ask(Ask::Plain(Plain::How));
    match world.step(alloc, Event { session, act }) {
        StepEnd::Replied(
            _,
            Reply::Found {
                publication: Publication::Tried(put),
                ..
            },
        ) => Some(put),
        _ => None,
    }
}

// Each of three sessions loads the model.
fn load_all(alloc: Global, world: &mut World) -> Result<(), AllocError> {
    for session in 1..4 {
        load(alloc, world, session)?;
    }
    Ok(())
}

// Two sessions come to the claim of a place before either of them claims one. A third one comes later, and is done
// before the first.
fn publish_all(alloc: Global, world: &mut World) {
    come_to_the_claim(alloc, world, 1);
    come_to_the_claim(alloc, world, 2);
    step(alloc, world, 1, Act::Claim);
    step(alloc, world, 2, Act::Claim);
    come_to_the_claim(alloc, world, 3);
    step(alloc, world, 3, Act::Claim);
    step(alloc, world, 3, Act::Done);
    step(alloc, world, 1, Act::Done);
}

// Of three sessions that publish at the same time, one is raced for its place, and a later one is done first.
#[test]
fn one_session_is_raced_and_one_overtaken(rt: HostRuntime) -> Result<(), Fail> {
    let alloc = rt.alloc();
    let mut world = World::new(alloc, 3, 4)?;
    load_all(alloc, &mut world)?;
    publish_all(alloc, &mut world);
    let puts = [
        published(alloc, &mut world, 1),
        published(alloc, &mut world, 2),
        published(alloc, &mut world, 3),
    ];
    drop(world);
    assert_eq!(rt;
        puts,
        [
            Some(Put::Published(0)),
            Some(Put::Raced(1)),
            Some(Put::Published(1))
        ]
    );
    Ok(())
}
