// How listeners are given to desks, and taken back from them.
ghost use Rattle.std.specs.Prelude.{◌≡◌, ◌≤◌, [], All, IfOk, OnOk, OnErr, vec_len, vec_capacity};
ghost use Rattle.lp_serve.specs.Desks.{IsOpen, IsRoom, nets_of};

use crate::desk::Desk;
use spec_serve::LinkEnd;
use std::alloc::{AllocError, Global};

// A list of `count` lists, each with room for the ends of `each` links.
fn rooms(alloc: Global, count: usize, each: u32) -> Result<Vec<Vec<LinkEnd>>, AllocError>
    ensures len { IfOk result (λ rooms. vec_len rooms ≡ count) }
    ensures rooms { IfOk result (λ rooms. All (IsRoom each) rooms.items) }
{
    let mut rooms = Vec::with_capacity(alloc, count)?;
    for index in 0..count {
        rooms.push_reserved(Vec::with_capacity(alloc, each as usize)?);
    }
    Ok(rooms)
}

// A desk for each listener, in their order, each with one of as many rooms. The listeners leave their room empty; where
// memory runs out, they stay.
fn seat<N: Drop>(
    alloc: Global,
    nets: &mut Vec<N>,
    mut rooms: Vec<Vec<LinkEnd>>,
    each: u32,
) -> Result<Vec<Desk<N>>, AllocError>
    requires len { vec_len nets.old ≡ vec_len rooms }
    requires rooms { All (IsRoom each) rooms.items }
    ensures nets { IfOk result (λ desks. nets_of desks.items ≡ nets.old.items) }
    ensures opened { IfOk result (λ desks. All (IsOpen each) desks.items) }
    ensures left { OnOk result (nets.new.items ≡ []) }
    ensures room { vec_capacity nets.new ≡ vec_capacity nets.old }
    ensures kept { OnErr result (nets.new ≡ nets.old) }
{
    let mut desks = Vec::with_capacity(alloc, nets.len())?;
    while let Some(net) = nets.pop() {
        let Some(ends) = rooms.pop() else {
            unreachable!()
        };
        desks.push_reserved(Desk {
            net,
            ends,
            has_failed: false,
        });
    }
    desks.reverse();
    Ok(desks)
}

/// A desk for each listener, in their order, with room for the ends of so many links. The listeners leave their room
/// empty; where memory runs out, they stay.
pub(crate) fn man<N: Drop>(
    alloc: Global,
    nets: &mut Vec<N>,
    each: u32,
) -> Result<Vec<Desk<N>>, AllocError>
    ensures nets { IfOk result (λ desks. nets_of desks.items ≡ nets.old.items) }
    ensures opened { IfOk result (λ desks. All (IsOpen each) desks.items) }
    ensures left { OnOk result (nets.new.items ≡ []) }
    ensures room { vec_capacity nets.new ≡ vec_capacity nets.old }
    ensures kept { OnErr result (nets.new ≡ nets.old) }
{
    let rooms = rooms(alloc, nets.len(), each)?;
    seat(alloc, nets, rooms, each)
}

/// Takes the listeners out of the desks, and puts them in their order into the vector, in the room that they left.
pub(crate) fn leave<N: Drop>(mut desks: Vec<Desk<N>>, nets: &mut Vec<N>)
    requires empty { nets.old.items ≡ [] }
    requires room { vec_len desks ≤ vec_capacity nets.old }
    ensures { nets.new.items ≡ nets_of desks.items }
{
    while let Some(desk) = desks.pop() {
        let Desk { net, .. } = desk;
        nets.push_reserved(net);
    }
    nets.reverse();
}
