//! Reading the text of a state, part by part.

ghost use Rattle.std.specs.Prelude.{◌≡◌, ◌↔◌, ◌≤◌, ◌+◌, ℕ, List, [], ◌∷◌, ◌++◌, Some, None};
ghost use Rattle.std.specs.Prelude.{IsTrue, IfOk, IfErr, OnOk, OnErr};
ghost use Rattle.std.specs.FinMap as finite;
ghost use Rattle.snapshot.specs.Snapshot.{SpellsSnapshot};
ghost use Rattle.snapshot.specs.Begun.{coin_in, HasRead};
ghost use Rattle.snapshot.specs.View.{front_view, snapshot_view};
ghost use Rattle.snapshot.specs.Faults.{IsFirstFault, IsLaterFault, IsPartFault, IsEndFault, UnlessOutOfMemory};
ghost use Rattle.snapshot.specs.Faults.{BeginsNoText, IsNoText, IsOfNetwork};
ghost use Rattle.snapshot.specs.Steps.{HasFirstSize, IsNoPair, IsOneRead, IsOneFault, IsRead, IsOutputsFault};

use crate::fault::SnapshotFault;
use crate::front::Front;
use crate::outputs::Outputs;
use crate::pair::{PART_LIMIT, read_pair};
use crate::snapshot::{GenesisHash, Snapshot};
use std::alloc::Global;
use std::marker::Model;

/// Whether so much lovelace is no more than there is.
fn is_within(coin: u128, more: u64, fees: u64, supply: u64) -> bool
    ensures { IsTrue result ↔ (coin + more + fees ≤ supply) }
{
    let limit = u128::from(supply);
    coin <= limit && coin + u128::from(more) + u128::from(fees) <= limit
}

/// Whether so much lovelace and the fees are what there is.
fn is_supply(coin: u128, fees: u64, supply: u64) -> bool
    ensures { IsTrue result ↔ (coin + fees ≡ supply) }
{
    let limit = u128::from(supply);
    coin <= limit && coin + u128::from(fees) == limit
}

/// How many bytes the text of the first output of a part has.
fn first_size(alloc: Global, part: &[u8]) -> Result<usize, SnapshotFault>
    ensures found { IfOk result (HasFirstSize part.now) }
    ensures fault { IfErr result (IsNoPair part.now) }
{
    let (_, _, rest) = read_pair(alloc, part)?;
    Ok(part.len() - rest.len())
}

/// Puts the output that stands first after the others, and answers the bytes after it.
fn read_output<'a>(
    alloc: Global,
    supply: u64,
    front: &Front,
    outputs: &mut Outputs,
    bytes: &'a [u8],
) -> Result<&'a [u8], SnapshotFault>
    ensures found { IfOk result (λ rest. IsOneRead (front_view front.now) supply
        (finite.entries outputs.old) (finite.entries outputs.new) bytes.now rest.now) }
    ensures fault { IfErr result (IsOneFault (front_view front.now) supply (finite.entries outputs.old) bytes.now) }
{
    let (input, output, rest) = read_pair(alloc, bytes)?;
    if outputs.len() as u64 >= front.count {
        return Err(SnapshotFault::TooMany);
    }
    if !is_within(outputs.coin(), output.value.coin(), front.fees, supply) {
        return Err(SnapshotFault::CoinsOverSupply);
    }
    outputs.add(input, output)?;
    Ok(rest)
}

/// Puts the outputs of a part after the others.
fn read_outputs(
    alloc: Global,
    supply: u64,
    front: &Front,
    outputs: &mut Outputs,
    part: &[u8],
) -> Result<(), SnapshotFault>
    ensures found { OnOk result (IsRead (front_view front.now) supply
        (finite.entries outputs.old) (finite.entries outputs.new) part.now []) }
    ensures fault { IfErr result (IsOutputsFault (front_view front.now) supply
        (finite.entries outputs.old) part.now) }
{
    let mut rest = part;
    while !rest.is_empty() {
        rest = read_output(alloc, supply, front, outputs, rest)?;
    }
    Ok(())
}

/// Reads the text of a state, one part after the other, whatever the bytes are. It keeps the outputs that it has read,
/// and nothing of the parts: memory grows with the outputs alone, whatever number of them the first part announces.
///
/// ```text
/// let mut reader = SnapshotReader::new(alloc, 12, digest);
/// reader.push(&first)?;
/// reader.push(&outputs)?;
/// let state = reader.finish()?; // state.utxo.coin() + state.fees is 12
/// ```
#[derive(Drop)]
pub struct SnapshotReader {
    alloc: Global,
    /// How much lovelace there is.
    pub(crate) supply: u64,
    /// The digest of what the network agrees on.
    pub(crate) digest: GenesisHash,
    /// What the first part said.
    front: Option<Front>,
    /// The outputs so far.
    outputs: Outputs,
    /// How many bytes the last part with outputs had. Before the first it is the limit, so that nothing is asked of it.
    size: usize,
}

impl Model for SnapshotReader {
    ghost use Rattle.snapshot.specs.Begun.{Begun, coded_begun};

    ghost Value = { Begun };

    ghost coded = { coded_begun };

    ghost use Rattle.snapshot.specs.ReaderView.{begun_of, KeepsFit};

    ghost view = { begun_of };

    ghost invariant = { KeepsFit };
}

impl SnapshotReader {
    /// A reader that has read nothing, of a state of one network: that with this digest of what it agrees on, and with
    /// so much lovelace, which is what its genesis grants. Takes no memory.
    pub fn new(alloc: Global, supply: u64, digest: GenesisHash) -> SnapshotReader
        ensures read { HasRead result [] }
        ensures supply { result.supply ≡ supply }
        ensures digest { result.digest ≡ digest.bytes }
    {
        SnapshotReader {
            alloc,
            supply,
            digest,
            front: None,
            outputs: Outputs::new(alloc),
            size: PART_LIMIT,
        }
    }

    /// Reads the first part.
    fn push_front(&mut self, part: &[u8]) -> Result<(), SnapshotFault>
        requires { self.old.front ≡ None }
        ensures read { OnOk result ((parts : List (List ℕ)) →
            HasRead self.old parts → HasRead self.new (parts ++ part.now ∷ [])) }
        ensures supply { self.new.supply ≡ self.old.supply }
        ensures digest { self.new.digest ≡ self.old.digest }
        ensures err { OnErr result (self.new ≡ self.old) }
        ensures fault { IfErr result (IsFirstFault self.old.supply self.old.digest part.now) }
    {
        let Some(front) = Front::of_part(part) else {
            return Err(SnapshotFault::NotAPart);
        };
        if front.digest != self.digest {
            return Err(SnapshotFault::OtherNetwork);
        }
        if front.fees > self.supply {
            return Err(SnapshotFault::CoinsOverSupply);
        }
        self.front = Some(front);
        Ok(())
    }

    /// Reads a part after the first, which said this.
    fn push_outputs(&mut self, front: &Front, part: &[u8]) -> Result<(), SnapshotFault>
        requires { self.old.front ≡ Some (front_view front.now) }
        ensures read { OnOk result ((parts : List (List ℕ)) →
            HasRead self.old parts → HasRead self.new (parts ++ part.now ∷ [])) }
        ensures supply { self.new.supply ≡ self.old.supply }
        ensures digest { self.new.digest ≡ self.old.digest }
        ensures err { OnErr result (self.new ≡ self.old) }
        ensures fault { IfErr result (IsLaterFault self.old.supply self.old.size (front_view front.now)
            (finite.entries self.old.utxo) part.now) }
    {
        if part.len() > PART_LIMIT {
            return Err(SnapshotFault::NotAPart);
        }
        let first = first_size(self.alloc, part)?;
        if first <= PART_LIMIT.saturating_sub(self.size) {
            return Err(SnapshotFault::RoomLeft);
        }
        let mut outputs = self.outputs.try_clone()?;
        read_outputs(self.alloc, self.supply, front, &mut outputs, part)?;
        self.outputs = outputs;
        self.size = part.len();
        Ok(())
    }

    /// Reads the next part. Ok where it is one: the first has the digest of the network, and the outputs of a later one
    /// come after the others, are no more than announced, and hold with the fees no more lovelace than there is. Err
    /// where no text of a state of this network begins so, for what is told: `NotAPart`, `CoinsOverSupply`, of the
    /// first part also `OtherNetwork`, and of a later one `RoomLeft`, `WrongOrder` and `TooMany`; and OutOfMemory,
    /// which is never told of the first part. With an Err the reader is as it was. Linear in the bytes, and for each
    /// output the logarithm of the number of all; outputs of earlier parts are not copied.
    pub fn push(&mut self, part: &[u8]) -> Result<(), SnapshotFault>
        ensures read { OnOk result ((parts : List (List ℕ)) →
            HasRead self.old parts → HasRead self.new (parts ++ part.now ∷ [])) }
        ensures supply { self.new.supply ≡ self.old.supply }
        ensures digest { self.new.digest ≡ self.old.digest }
        ensures err { OnErr result (self.new ≡ self.old) }
        ensures fault { IfErr result (IsPartFault self.old part.now) }
        ensures refused { IfErr result (λ fault. UnlessOutOfMemory fault (BeginsNoText self.old part.now)) }
    {
        let Some(front) = self.front else {
            return self.push_front(part);
        };
        self.push_outputs(&front, part)
    }

    /// What the first part said, where all that it announced was read, and holds with the fees what there is.
    fn whole(&self) -> Result<Front, SnapshotFault>
        ensures front { IfOk result (λ front. self.now.front ≡ Some (front_view front)) }
        ensures counted { IfOk result (λ front. finite.len self.now.utxo ≡ front.count) }
        ensures coins { IfOk result (λ front. coin_in (finite.entries self.now.utxo) + front.fees ≡ self.now.supply) }
        ensures fault { IfErr result (IsEndFault self.now) }
    {
        let Some(front) = self.front else {
            return Err(SnapshotFault::Unfinished);
        };
        if self.outputs.len() as u64 != front.count {
            return Err(SnapshotFault::Unfinished);
        }
        if !is_supply(self.outputs.coin(), front.fees, self.supply) {
            return Err(SnapshotFault::CoinsMissing);
        }
        Ok(front)
    }

    /// The state whose text the parts are that were read. Err `Unfinished` where the first part is missing or outputs
    /// that it announced, and `CoinsMissing` where the outputs and the fees hold less lovelace than there is: each says
    /// that the parts are no text of a state of this network. Constant time, and no memory.
    pub fn finish(self) -> Result<Snapshot, SnapshotFault>
        ensures spelled { IfOk result (λ state. (parts : List (List ℕ)) →
            HasRead self parts → SpellsSnapshot (snapshot_view state) parts) }
        ensures network { IfOk result (λ state. IsOfNetwork self (snapshot_view state)) }
        ensures fault { IfErr result (IsEndFault self) }
        ensures refused { IfErr result (λ fault. UnlessOutOfMemory fault (IsNoText self)) }
    {
        match self.whole() {
            Err(fault) => Err(fault),
            Ok(front) => Ok(Snapshot {
                tip: front.tip,
                fees: front.fees,
                digest: self.digest, // which the first part had
                utxo: self.outputs.into_utxo(),
            }),
        }
    }
}
