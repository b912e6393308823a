// How the asks are dealt to workers, and the replies gathered from them.
ghost use Rattle.std.specs.Prelude.{◌≡◌, ◌<◌, ◌≤◌, [], All, IfOk, OnOk, List, map, reverse, vec_len};
ghost use Rattle.spec_server.specs.Exchanges.{Exchange};
ghost use Rattle.lp_script.specs.Dealt.{AreDealt, HoldReplies};
ghost use Rattle.lp_script.specs.Parts.{IsOpen};

use crate::part::Part;
use lp_line::{Asked, Reply};
use std::alloc::{AllocError, Global};

/// A list of `workers` parts without requests.
pub(crate) fn open_parts(alloc: Global, workers: u32) -> Result<Vec<Part>, AllocError>
    ensures len { IfOk result (λ parts. vec_len parts ≡ workers) }
    ensures idle { IfOk result (λ parts. All (λ part. part.asks.items ≡ []) parts.items) }
    ensures opened { IfOk result (λ parts. All IsOpen parts.items) }
{
    let mut parts = Vec::with_capacity(alloc, workers as usize)?;
    for index in 0..workers {
        parts.push_reserved(Part::new(alloc)?);
    }
    Ok(parts)
}

/// Deals the requests to the parts, of which there is one at least: each to the part whose number is the remainder of
/// its session's number by the number of parts. It gives the sessions of the requests, the last one first.
pub(crate) fn deal(
    alloc: Global,
    mut asks: Vec<Asked>,
    parts: &mut Vec<Part>,
) -> Result<Vec<u32>, AllocError>
    requires some { 0 < vec_len parts.old }
    requires idle { All (λ part. part.asks.items ≡ []) parts.old.items }
    requires opened { All IsOpen parts.old.items }
    requires sessions { All (λ asked. asked.session ≤ 64) asks.items }
    ensures sessions { IfOk result (λ sessions. sessions.items ≡ reverse (map (λ asked. asked.session) asks.items)) }
    ensures dealt { OnOk result (AreDealt (vec_len parts.old) asks.items parts.new.items) }
    ensures len { vec_len parts.new ≡ vec_len parts.old }
    ensures opened { OnOk result (All IsOpen parts.new.items) }
{
    let mut sessions = Vec::with_capacity(alloc, asks.len())?;
    while let Some(asked) = asks.pop() {
        let part = asked.session as usize % parts.len();
        sessions.push_reserved(asked.session);
        parts[part].take(asked)?;
    }
    Ok(sessions)
}

/// Takes the replies out of the parts, and gives them in the order of the requests. `sessions` has the session of each
/// request, the last one first.
pub(crate) fn collect(
    alloc: Global,
    sessions: &[u32],
    parts: &mut Vec<Part>,
) -> Result<Vec<Reply>, AllocError>
    requires some { 0 < vec_len parts.old }
    requires held { (exchanges : List Exchange)
        × HoldReplies (vec_len parts.old) sessions.now parts.old.items exchanges }
    ensures replies { (exchanges : List Exchange) →
        HoldReplies (vec_len parts.old) sessions.now parts.old.items exchanges →
        IfOk result (λ replies. replies.items ≡ reverse (map (λ x. x.reply) exchanges)) }
    ensures len { vec_len parts.new ≡ vec_len parts.old }
{
    let mut replies = Vec::with_capacity(alloc, sessions.len())?;
    for session in sessions {
        let part = *session as usize % parts.len();
        let Some(reply) = parts[part].replies.pop() else {
            unreachable!()
        };
        replies.push_reserved(reply);
    }
    replies.reverse();
    Ok(replies)
}
