//! Writing the text of a state, part by part.

ghost use Rattle.std.specs.Prelude.{◌≡◌, ◌≤◌, ◌↔◌, ◌+◌, ℕ, List, [], ◌∷◌, Some, None, length, IsTrue};
ghost use Rattle.std.specs.Prelude.{IfOk, IfErr, IfSome, IfNone, OnErr, vec_capacity};
ghost use Rattle.block.specs.View.{tip_of};
ghost use Rattle.snapshot.specs.Snapshot.{SpellsSnapshot, IsFront, HasNoRoom, front_of, part_limit};
ghost use Rattle.snapshot.specs.ToWrite.{AreLeft, IsNext, IsFilled, NextIsTooLong};
ghost use Rattle.snapshot.specs.View.{front_view};
ghost use Rattle.snapshot.specs.FaultView.{IfTooLong};

use crate::fault::WriteFault;
use crate::front::Front;
use crate::pair::{PART_LIMIT, put_pair};
use crate::snapshot::GenesisHash;
use block::Tip;
use std::alloc::Global;
use std::marker::Model;
use tx::{Input, Output};
use utxo_rules::{Entries, Utxo};

/// Writes the text of a state, one part after the other. The outputs are walked through in the order of their inputs as
/// the parts are asked for, so that one part at a time takes memory.
///
/// ```text
/// let mut writer = SnapshotWriter::new(alloc, Tip::genesis(), 0, digest, &utxo).ok_or("no chain ends so")?;
/// let first = writer.next_part()?; // Some: 41 bytes and more
/// let outputs = writer.next_part()?; // Some, or None where no output is unspent
/// ```
#[derive(Drop)]
pub struct SnapshotWriter<'a> {
    alloc: Global,
    /// What the first part says, until it was written.
    front: Option<Front>,
    /// The next output.
    next: Option<(Input, &'a Output)>,
    /// Those after it.
    rest: Entries<'a>,
}

impl<'a> Model for SnapshotWriter<'a> {
    ghost use Rattle.snapshot.specs.ToWrite.{ToWrite, coded_to_write};

    ghost Value = { ToWrite };

    ghost coded = { coded_to_write };

    ghost use Rattle.snapshot.specs.WriterView.{to_write_of};

    ghost view = { to_write_of };
}

impl<'a> SnapshotWriter<'a> {
    /// A writer of the state of a chain that ends at this tip, with these fees in lovelace, this digest of what its
    /// network agrees on, and these unspent outputs. None where no chain ends so: genesis has number 0, slot 0 and no
    /// fees, and a block a number from 1 on and a slot from its number to 2^63 - 1. Takes no memory, and time in
    /// proportion to the logarithm of the number of outputs.
    pub fn new(
        alloc: Global,
        tip: Tip,
        fees: u64,
        digest: GenesisHash,
        utxo: &'a Utxo,
    ) -> Option<SnapshotWriter<'a>>
        ensures whole { IfSome result (λ writer. (parts : List (List ℕ)) →
            AreLeft writer parts ↔ SpellsSnapshot
            (record { tip = tip_of tip; fees = fees; digest = digest.bytes; utxo = utxo.now }) parts) }
        ensures none { IfNone result (IsFront (front_of
            (record { tip = tip_of tip; fees = fees; digest = digest.bytes; utxo = utxo.now })) → ⊥) }
    {
        let front = Front {
            tip,
            fees,
            digest,
            count: utxo.len() as u64,
        };
        if !front.is_reached() {
            return None;
        }
        let mut rest = utxo.iter();
        let next = rest.next();
        Some(SnapshotWriter {
            alloc,
            front: Some(front),
            next,
            rest,
        })
    }

    /// The first part, which says this.
    fn front_part(&mut self, front: &Front) -> Result<Vec<u8>, WriteFault>
        requires { self.old.front ≡ Some (front_view front.now) }
        ensures part { IfOk result (λ part. IsNext self.old self.new part.items) }
        ensures err { OnErr result (self.new ≡ self.old) }
        ensures fault { IfErr result (λ fault. IfTooLong fault ⊥) }
    {
        let part = front.encode(self.alloc)?;
        self.front = None;
        Ok(part)
    }

    /// Puts outputs into an empty part for which memory was taken, as many as have room there.
    fn fill(&mut self, part: &mut Vec<u8>)
        requires empty { part.old.items ≡ [] }
        requires room { part_limit ≤ vec_capacity part.old }
        ensures filled { IsFilled self.old.pairs self.new.pairs part.new.items }
        ensures full { HasNoRoom (length part.new.items) self.new.pairs }
        ensures front { self.new.front ≡ self.old.front }
    {
        while let Some((input, output)) = self.next {
            if !put_pair(part, &input, output) {
                return;
            }
            self.next = self.rest.next();
        }
    }

    /// Whether no output is left.
    fn is_done(&self) -> bool
        ensures { IsTrue result ↔ (self.now.pairs ≡ []) }
    {
        self.next.is_none()
    }

    /// The next part with outputs, or None where none is left.
    fn outputs_part(&mut self) -> Result<Option<Vec<u8>>, WriteFault>
        requires { self.old.front ≡ None }
        ensures part { IfOk result (λ r. IfSome r (λ part. IsNext self.old self.new part.items)) }
        ensures ended { IfOk result (λ r. IfNone r (AreLeft self.old [])) }
        ensures same { IfOk result (λ r. IfNone r (self.new ≡ self.old)) }
        ensures err { OnErr result (self.new ≡ self.old) }
        ensures fault { IfErr result (λ fault. IfTooLong fault ((parts : List (List ℕ)) → AreLeft self.old parts → ⊥)) }
        ensures long { IfErr result (λ fault. IfTooLong fault (NextIsTooLong self.old.pairs)) }
        ensures more { OnErr result (AreLeft self.old [] → ⊥) }
    {
        if self.is_done() {
            return Ok(None);
        }
        let mut part = Vec::with_capacity(self.alloc, PART_LIMIT)?;
        self.fill(&mut part);
        if part.is_empty() {
            return Err(WriteFault::TooLong);
        }
        Ok(Some(part))
    }

    /// The next part, or None where all are written. Of a state that has a text, the parts so far are a beginning of
    /// its one list of parts, and at None they are all of it. Err `TooLong` where the text of the next output has more
    /// than 1 MiB by itself: the state has no text. OutOfMemory where there is no memory for one more part: 1 MiB, or
    /// less than 200 bytes for the first; never where all are written. With an Err the writer is as it was. Linear in
    /// the bytes of the part, and for each output in it the logarithm of the number of all.
    pub fn next_part(&mut self) -> Result<Option<Vec<u8>>, WriteFault>
        ensures part { IfOk result (λ r. IfSome r (λ part. IsNext self.old self.new part.items)) }
        ensures ended { IfOk result (λ r. IfNone r (AreLeft self.old [])) }
        ensures same { IfOk result (λ r. IfNone r (self.new ≡ self.old)) }
        ensures err { OnErr result (self.new ≡ self.old) }
        ensures fault { IfErr result (λ fault. IfTooLong fault ((parts : List (List ℕ)) → AreLeft self.old parts → ⊥)) }
        ensures long { IfErr result (λ fault. IfTooLong fault (NextIsTooLong self.old.pairs)) }
        ensures more { OnErr result (AreLeft self.old [] → ⊥) }
    {
        let Some(front) = self.front else {
            return self.outputs_part();
        };
        match self.front_part(&front) {
            Ok(part) => Ok(Some(part)),
            Err(fault) => Err(fault),
        }
    }
}
