//! Who answers a client's lane.

ghost use Rattle.std.specs.Prelude.{◌≡◌, option_map, IfOk, OnErr};
ghost use Rattle.conversing.specs.RequestView.{call_view, id_view};
ghost use Rattle.shared.specs.Starts.{network_from};

use crate::host::{FlushFault, Host};
use crate::node::Node;
use crate::pending_reply::PendingReply;
use conversing::{BlockName, Call, Desk, Outcome, OutputsOf, Request, fault_line, read_request};
use followers::FollowerId;
use shared::{Caller, Room, Shared};
use std::alloc::{AllocError, Global};
use std::sync::Wait;
use witness_pool::SigScheme;

/// Who answers a client's lane: each line is read as a request, the call is made of the core that threads share, and
/// the reply is written. The client's follower is opened with its first call that needs one.
#[derive(Drop)]
pub struct Clerk<'a, S: SigScheme, B: Room, R, H: Host> {
    node: Node<'a, S, B, R>,
    caller: Caller<B>,
    follower: Option<FollowerId>,
    host: H,
}

impl<'a, S: SigScheme, B: Room, R: Wait, H: Host> Clerk<'a, S, B, R, H> {
    ghost use Rattle.serving.specs.Lanes.{lane, number_of};
    ghost use Rattle.serving.specs.Following.{HasLeft};
    ghost use Rattle.serving.specs.Replies.{Replies};
    ghost use Rattle.serving.specs.Serving.{IsCarriedOut, TellsFlush, WasFlushed};

    /// Who answers a lane whose calls are this caller's, in this program.
    pub fn new(
        alloc: Global,
        rt: &'a R,
        shared: &'a Shared<S, B>,
        caller: Caller<B>,
        host: H,
    ) -> Clerk<'a, S, B, R, H>
        ensures { lane result.caller result.follower result.host ≡ lane caller None host }
    {
        Clerk {
            node: Node { alloc, rt, shared },
            caller,
            follower: None,
            host,
        }
    }

    /// The client has left: its follower is closed, if it has one, and the caller may be the next client's. Waits for
    /// the lock where there is a follower to close.
    pub fn leave(self) -> Caller<B>
        ensures { HasLeft (network_from B.start S.verifies) self.entry.caller (option_map number_of self.entry.follower)
            result }
    {
        let Clerk {
            node,
            mut caller,
            follower,
            host: _,
        } = self;
        node.close(&mut caller, follower);
        caller
    }

    /// The reply to `flush`.
    fn tell_flush(&mut self, reply: PendingReply) -> Vec<u8>
        ensures told { Replies (id_view reply.id) (TellsFlush H.flushes H.fails self.old.host self.new.host)
            (WasFlushed H.flushes H.fails self.old.host self.new.host) result.items }
        ensures same { self.new ≡ record self.old { host = self.new.host } }
    {
        match self.host.flush() {
            Ok(durable) => reply.tell(&Outcome::Flushed(durable)),
            Err(FlushFault {}) => reply.tell(&Outcome::NotFlushed),
        }
    }

    /// The reply to `stop`.
    fn tell_stop(&mut self, reply: PendingReply) -> Vec<u8>
        ensures told { Replies (id_view reply.id) (λ outcome. outcome ≡ Outcome.Stopping) (Unit {0}) result.items }
        ensures stops { H.stops self.old.host self.new.host }
        ensures same { self.new ≡ record self.old { host = self.new.host } }
    {
        self.host.stop();
        reply.tell(&Outcome::Stopping)
    }

    /// The reply to a call. Err where memory runs out before the call is made, and then nothing changes.
    fn carry_out(&mut self, call: Call, reply: PendingReply) -> Result<Vec<u8>, AllocError>
        ensures ok { IfOk result (λ line. IsCarriedOut H.flushes H.fails H.stops H.ends
            (network_from B.start S.verifies) (lane self.old.caller self.old.follower self.old.host)
            (call_view call) (id_view reply.id)
            (lane self.new.caller self.new.follower self.new.host) line.items) }
        ensures err { OnErr result (self.new ≡ self.old) }
    {
        let node = &self.node;
        let caller = &mut self.caller;
        match call {
            Call::QueryTip => Ok(node.tell_tip(caller, reply)),
            Call::QueryHeight => Ok(node.tell_height(caller, reply)),
            Call::QueryUtxo(OutputsOf::Places(places)) => {
                node.tell_outputs_at(caller, &places, reply)
            }
            Call::QueryUtxo(OutputsOf::Addresses(addresses)) => {
                node.tell_outputs_of(caller, &addresses, reply)
            }
            Call::QueryBlock(name) => match name {
                BlockName::Number(number) => node.tell_block_at(caller, number, reply),
                BlockName::Hash(hash) => node.tell_block_of(caller, hash, reply),
            },
            Call::QueryTransaction(id) => Ok(node.tell_standing(caller, id, reply)),
            Call::QueryMempool => node.tell_mempool(caller, reply),
            Call::Why(hash) => node.tell_why(caller, hash, reply),
            Call::SubmitTransaction(bytes) => node.tell_submission(caller, &bytes, reply),
            Call::Evaluate(bytes) => node.tell_evaluation(caller, &bytes, reply),
            Call::Forge(slot) => Ok(node.tell_forging(caller, slot, reply)),
            Call::FindIntersection(points) => {
                node.tell_intersection(caller, &mut self.follower, &points, reply)
            }
            Call::NextBlock => node.tell_next(caller, &mut self.follower, &self.host, reply),
            Call::Flush => Ok(self.tell_flush(reply)),
            Call::Stop => Ok(self.tell_stop(reply)),
        }
    }

    /// The reply to a request. Err where memory runs out before its call is made, and then nothing changes.
    fn serve(&mut self, request: Request) -> Result<Vec<u8>, AllocError>
        ensures ok { IfOk result (λ line. IsCarriedOut H.flushes H.fails H.stops H.ends
            (network_from B.start S.verifies) (lane self.old.caller self.old.follower self.old.host)
            (call_view request.call) (id_view request.id)
            (lane self.new.caller self.new.follower self.new.host) line.items) }
        ensures err { OnErr result (self.new ≡ self.old) }
    {
        let Request { id, call } = request;
        let reply = PendingReply::new(self.node.alloc, id)?;
        self.carry_out(call, reply)
    }
}

impl<S: SigScheme, B: Room, R: Wait, H: Host> Desk for Clerk<'_, S, B, R, H> {
    ghost use Rattle.serving.specs.Lanes.{lane};
    ghost use Rattle.serving.specs.Serving.{IsAnsweredLine};

    ghost answers = { λ before line after reply. IsAnsweredLine H.flushes H.fails H.stops H.ends
        (network_from B.start S.verifies) (lane before.caller before.follower before.host) line
        (lane after.caller after.follower after.host) reply };

    /// The reply to a line: to a request what its call comes to, and else the first fault of the line. A notification
    /// is obeyed, and its reply is empty.
    fn answer(&mut self, line: &[u8]) -> Result<Vec<u8>, AllocError> {
        match read_request(self.node.alloc, line) {
            Ok(request) => self.serve(request),
            Err(fault) => fault_line(self.node.alloc, &fault),
        }
    }
}
