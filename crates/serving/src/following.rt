//! What is told of what comes next on the chain.

ghost use Rattle.std.specs.Prelude.{◌≡◌, map, option_map, IfErr, IfOk, MatchOption, OnErr, Some};
ghost use Rattle.chain_core.specs.Views.{instruction_of};
ghost use Rattle.ident.specs.PointView.{point_of};
ghost use Rattle.conversing.specs.RequestView.{id_view, point_view};
ghost use Rattle.shared.specs.Starts.{network_from};
ghost use Rattle.shared.specs.Later.{IsLater};
ghost use Rattle.serving.specs.Lanes.{number_of};
ghost use Rattle.serving.specs.Replies.{Replies};
ghost use Rattle.serving.specs.Following.{HasFollowed, HasFollower, HasLeft, HasNoFollower, IsDueAfter};
ghost use Rattle.serving.specs.Following.{IsInstructionTold};
ghost use Rattle.serving.specs.Following.{IsPointFound, TellsDue, TellsIntersection, TellsNext, TellsSet};
ghost use Rattle.serving.specs.Following.{point_named, point_told};

use crate::block_telling::told_block;
use crate::host::{Ending, Host};
use crate::node::Node;
use crate::pending_reply::PendingReply;
use chain_core::{Instruction, NextFault};
use conversing::{BlockPoint, ChainTip, Outcome};
use followers::{FollowerId, OpenFollowerFault, UnknownFollower};
use ident::{BlockHash, Point};
use shared::{Caller, Room};
use std::alloc::{AllocError, Global};
use std::sync::Wait;
use witness_pool::SigScheme;

/// A point that a client names, as the core has it.
fn named_point(point: &BlockPoint) -> Point
    ensures { point_of result ≡ point_named (point_view point.now) }
{
    Point {
        number: point.number,
        hash: BlockHash::from_bytes(point.hash),
    }
}

/// The points that a client names, as the core has them.
fn named_points(alloc: Global, points: &[BlockPoint]) -> Result<Vec<Point>, AllocError>
    ensures { IfOk result (λ named. map point_of named.items ≡ map point_named (map point_view points.now)) }
{
    let mut named = Vec::with_capacity(alloc, points.len())?;
    for point in points {
        named.push(named_point(point))?;
    }
    Ok(named)
}

/// A point as it is told.
fn told_point(point: Point) -> BlockPoint
    ensures { point_told result ≡ point_of point }
{
    let hash = point.hash.bytes;
    BlockPoint {
        number: point.number,
        hash,
    }
}

/// What tells the point that a follower was set to, or that it was set to none.
fn intersection(found: Option<Point>, tip: ChainTip) -> Outcome<'static>
    ensures { IsPointFound (option_map point_of found) tip result }
{
    match found {
        Some(point) => Outcome::Intersection(told_point(point), tip),
        None => Outcome::NoIntersection(tip),
    }
}

/// What tells an instruction.
fn instructed<S: SigScheme>(instruction: &Instruction<S>, tip: ChainTip) -> Outcome<'_>
    ensures { IsInstructionTold (instruction_of (Some instruction.now)) tip result }
{
    match instruction {
        Instruction::AddBlock(block) => Outcome::Forward(told_block(block.block()), tip),
        Instruction::RollBack(point) => Outcome::Backward(told_point(*point), tip),
    }
}

impl<S: SigScheme, B: Room, R: Wait> Node<'_, S, B, R> {
    /// The lane's follower, which is opened where it has none; None where no number is free for one. Err where memory
    /// runs out, and then nothing changes.
    fn follower(
        &self,
        caller: &mut Caller<B>,
        follower: &mut Option<FollowerId>,
    ) -> Result<Option<FollowerId>, AllocError>
        ensures ok { IfOk result (λ id. let network = network_from B.start S.verifies in
            MatchOption id (HasNoFollower network caller.old (option_map number_of follower.old) caller.new)
            (λ id. HasFollower network caller.old (option_map number_of follower.old) caller.new id.number)) }
        ensures keeps { IfOk result (λ id.
            MatchOption id (follower.new ≡ follower.old) (λ id. follower.new ≡ Some id)) }
        ensures err { OnErr result ((caller.new ≡ caller.old) × (follower.new ≡ follower.old)) }
    {
        match *follower {
            Some(id) => Ok(Some(id)),
            None => match self.shared.open(self.rt, caller) {
                Ok(id) => {
                    *follower = Some(id);
                    Ok(Some(id))
                }
                Err(OpenFollowerFault::TooManyFollowers) => Ok(None),
                Err(OpenFollowerFault::OutOfMemory) => Err(AllocError),
            },
        }
    }

    /// Closes the lane's follower, if it has one.
    pub fn close(&self, caller: &mut Caller<B>, follower: Option<FollowerId>)
        ensures { HasLeft (network_from B.start S.verifies) caller.old (option_map number_of follower) caller.new }
    {
        match follower {
            Some(id) => {
                // It was opened by this lane, so it is there.
                let _closed = self.shared.close(self.rt, caller, id);
            }
            None => {}
        }
    }

    /// The reply that tells to which of the points the follower is set.
    fn tell_set(
        &self,
        caller: &mut Caller<B>,
        id: FollowerId,
        points: &[Point],
        reply: PendingReply,
    ) -> Vec<u8>
        ensures { let network = network_from B.start S.verifies in Replies (id_view reply.id)
            (TellsSet network (map point_of points.now) id.number caller.old caller.new)
            (IsLater network caller.old caller.new) result.items }
    {
        match self.shared.forward(self.rt, caller, id, points) {
            Ok(found) => {
                let tip = self.tip(caller);
                let outcome = intersection(found, tip);
                reply.tell(&outcome)
            }
            // The program closed it.
            Err(UnknownFollower {}) => reply.fail(),
        }
    }

    /// The reply to `findIntersection`. Err where memory runs out before the call is made, and then nothing changes.
    pub fn tell_intersection(
        &self,
        caller: &mut Caller<B>,
        follower: &mut Option<FollowerId>,
        points: &[BlockPoint],
        reply: PendingReply,
    ) -> Result<Vec<u8>, AllocError>
        ensures ok { IfOk result (λ line. let network = network_from B.start S.verifies in Replies (id_view reply.id)
            (TellsIntersection network (map point_view points.now) caller.old (option_map number_of follower.old)
            caller.new (option_map number_of follower.new))
            (HasFollowed network caller.old (option_map number_of follower.old) caller.new
            (option_map number_of follower.new)) line.items) }
        ensures err { OnErr result ((caller.new ≡ caller.old) × (follower.new ≡ follower.old)) }
    {
        let named = named_points(self.alloc, points)?;
        let found = self.follower(caller, follower)?;
        match found {
            Some(id) => Ok(self.tell_set(caller, id, &named, reply)),
            None => Ok(reply.tell(&Outcome::NoFollower)),
        }
    }

    /// What comes next for a follower, once something does; None where the program ends while nothing does.
    fn due<H: Host>(
        &self,
        caller: &mut Caller<B>,
        id: FollowerId,
        host: &H,
    ) -> Result<Option<Instruction<S>>, NextFault>
        ensures due { IfOk result (λ due. IsDueAfter (network_from B.start S.verifies) id.number caller.old
            (instruction_of due) caller.new) }
        ensures ends { IfOk result (λ due. MatchOption due (H.ends host.now) (λ instruction. Unit {0})) }
        ensures later { IsLater (network_from B.start S.verifies) caller.old caller.new }
    {
        'waits: for _ in self.rt.forever() {
            // What is due comes with a block that is put on, which this height doesn't count yet.
            let height = self.shared.height(caller);
            match self.shared.next(self.rt, caller, id) {
                Ok(Some(instruction)) => return Ok(Some(instruction)),
                Ok(None) => {
                    if let Err(Ending {}) = host.wait_above(height) {
                        return Ok(None);
                    }
                }
                Err(fault) => return Err(fault),
            }
        }
        unreachable!()
    }

    /// The reply that tells what comes next for a follower, once something does, or that the program ends.
    fn tell_due<H: Host>(
        &self,
        caller: &mut Caller<B>,
        id: FollowerId,
        host: &H,
        reply: PendingReply,
    ) -> Vec<u8>
        ensures { let network = network_from B.start S.verifies in Replies (id_view reply.id)
            (TellsDue network (H.ends host.now) id.number caller.old caller.new)
            (IsLater network caller.old caller.new) result.items }
    {
        match self.due(caller, id, host) {
            Ok(Some(instruction)) => {
                let tip = self.tip(caller);
                let outcome = instructed(&instruction, tip);
                reply.tell(&outcome)
            }
            Ok(None) => reply.tell(&Outcome::Ending),
            Err(_fault) => reply.fail(),
        }
    }

    /// The reply to `nextBlock`, once something comes next or the program ends. Err where memory runs out before the
    /// call is made, and then nothing changes.
    pub fn tell_next<H: Host>(
        &self,
        caller: &mut Caller<B>,
        follower: &mut Option<FollowerId>,
        host: &H,
        reply: PendingReply,
    ) -> Result<Vec<u8>, AllocError>
        ensures ok { IfOk result (λ line. let network = network_from B.start S.verifies in Replies (id_view reply.id)
            (TellsNext network (H.ends host.now) caller.old (option_map number_of follower.old) caller.new
            (option_map number_of follower.new))
            (HasFollowed network caller.old (option_map number_of follower.old) caller.new
            (option_map number_of follower.new)) line.items) }
        ensures err { OnErr result ((caller.new ≡ caller.old) × (follower.new ≡ follower.old)) }
    {
        let found = self.follower(caller, follower)?;
        match found {
            Some(id) => Ok(self.tell_due(caller, id, host, reply)),
            None => Ok(reply.tell(&Outcome::NoFollower)),
        }
    }
}
