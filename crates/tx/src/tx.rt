//! Transactions that have a text, with their identifier and their size.

ghost use Rattle.std.specs.Prelude.{◌≡◌, ◌++◌, ℕ, List, length, map, ◌<◌, ◌≤◌, ◌+◌, IfOk, IfErr, OnOk, OnErr};
ghost use Rattle.std.specs.Prelude.{vec_len, vec_capacity};
ghost use Rattle.model.specs.Limits.{nesting_limit, script_nesting_limit};
ghost use Rattle.model.specs.Cbor.{text_of, nesting};
ghost use Rattle.model.specs.Transaction as model;
ghost use Rattle.model.specs.Transaction.{item_of_transaction, SpellsTransaction, transaction_id_of, size_of};
ghost use Rattle.model.specs.Transaction.{interval_of_transaction};
ghost use Rattle.cbor.specs.Gives.{Gives, GivesNo, IfMalformed, IfWant};
ghost use Rattle.cbor.specs.Texts.{BeginsWithText, Keeps, Writes};
ghost use Rattle.timelock.specs.View.{interval_of};
ghost use Rattle.tx.specs.View.{input_of, output_of, witness_of};
ghost use Rattle.tx.specs.TransactionReading.{transaction_at};
ghost use Rattle.tx.specs.Bare.{BeginsLikeTransaction, IsBare};
ghost use Rattle.tx.specs.BodyView.{body_of};
ghost use Rattle.tx.specs.WitnessesView.{witnesses_of};
ghost use Rattle.tx.specs.Parts.{IsTxOf, IsPartsFault, IfAtFault};
ghost use Rattle.tx.specs.Making.{parts_of, transaction_of_halves, HasTextWith};

use crate::body::Body;
use crate::copying::{clone_body, clone_witnesses};
use crate::input::Input;
use crate::key_witness::KeyWitness;
use crate::nesting::MAX_SCRIPT_NESTING;
use crate::output::Output;
use crate::parts::TxParts;
use crate::parts_fault::PartsFault;
use crate::witnesses::Witnesses;
use cbor::{CborFault, Decode, Encode};
use ident::TxId;
use std::alloc::{AllocError, Global};
use std::marker::Model;
use timelock::{Interval, Script};
use value::Mint;

/// A transaction of the Shelley-MA era that has a text. Its identifier and its size were computed once, when it was
/// read or made, and are kept.
#[derive(Debug, Drop)]
pub struct Tx {
    alloc: Global,
    id: TxId,
    size: u64,
    body: Body,
    witnesses: Witnesses,
}

impl Model for Tx {
    ghost use Rattle.model.specs.Transaction.{Transaction};
    ghost use Rattle.model.specs.Codes.{coded_transaction};

    ghost Value = { Transaction };

    ghost coded = { coded_transaction };

    ghost use Rattle.tx.specs.Held.{tx_of, IsHeldTx};

    ghost view = { tx_of };

    ghost invariant = { IsHeldTx };
}

impl Tx {
    /// The transaction that stands first, each of whose scripts nests at most `depth` deep, and the bytes after it.
    #[tactic(auto, unfolding(crate::specs::TransactionReading::transaction_at, crate::specs::TransactionReading::nothing_more_at, cbor::specs::Shapes::as_at, cbor::specs::Shapes::array_at, cbor::specs::Shapes::both_at))]
    fn first(alloc: Global, depth: usize, bytes: &[u8]) -> Result<(Tx, &[u8]), CborFault>
        requires { depth ≤ script_nesting_limit }
        ensures exact { Gives (λ x. (x.0, x.1.now)) result (transaction_at depth bytes.now) }
        ensures want { IfErr result (λ fault. IfWant fault
            (GivesNo (λ x. IsBare x.0) (transaction_at depth bytes.now))) }
        ensures begins { IfErr result (λ fault. IfWant fault (BeginsLikeTransaction bytes.now)) }
    {
        let members = cbor::members(bytes, 3).ok_or(CborFault::Malformed)?;
        let (body, after_body) = Body::read(alloc, members)?;
        let (witnesses, after_witnesses) = Witnesses::read(alloc, depth, after_body)?;
        let rest = cbor::null(after_witnesses).ok_or(CborFault::Malformed)?;
        let (body_text, _) = members.split_at(members.len() - after_body.len());
        let tx = Tx {
            alloc,
            id: TxId::of_body(body_text),
            size: (bytes.len() - rest.len()) as u64,
            body,
            witnesses,
        };
        Ok((tx, rest))
    }

    /// The transaction of a body and witnesses that have a text. The text is written once: the body's part of it is
    /// hashed, and all of it is counted.
    fn sealed(alloc: Global, body: Body, witnesses: Witnesses) -> Result<Tx, AllocError>
        requires { HasTextWith (body_of body) (witnesses_of witnesses) }
        ensures { IfOk result (λ tx. tx ≡ transaction_of_halves (body_of body) (witnesses_of witnesses)) }
    {
        let mut text = Vec::new(alloc);
        cbor::write_array(&mut text, 3)?;
        let start = text.len();
        body.write(&mut text)?;
        let (_, written) = text.split_at(start);
        let id = TxId::of_body(written);
        witnesses.write(&mut text)?;
        cbor::write_null(&mut text)?;
        Ok(Tx {
            alloc,
            id,
            size: text.len() as u64,
            body,
            witnesses,
        })
    }

    /// The transaction of these parts, of which inputs, signatures and scripts may come in any order. Err where no
    /// transaction has just these parts, for the first of the reasons that there is: `RepeatedInput`, `TooManyOutputs`
    /// for more than 65,536, `RepeatedKey`, `RepeatedScript`, and `TooDeep` for a script that nests deeper than 61. Of
    /// what is repeated the least is told. OutOfMemory only where there is no such reason. Sorts n parts where they
    /// are, in n log n comparisons, and writes the text once, to hash and to count it.
    ///
    /// ```text
    /// let tx = Tx::new(alloc, parts)?;
    /// println!(rt; "{} has {} bytes", tx.id(), tx.size())?;
    /// ```
    pub fn new(alloc: Global, mut parts: TxParts) -> Result<Tx, PartsFault>
        ensures made { IfOk result (λ tx. IsTxOf tx (parts_of parts)) }
        ensures fault { IfErr result (IsPartsFault (parts_of parts)) }
        ensures refused { IfErr result (λ fault. IfAtFault fault ((tx : model.Transaction) (text : List ℕ) →
            SpellsTransaction tx text → IsTxOf tx (parts_of parts) → ⊥)) }
    {
        parts.put_in_order();
        parts.check()?;
        let (body, witnesses) = parts.into_halves();
        Ok(Tx::sealed(alloc, body, witnesses)?)
    }

    /// The transaction whose text stands first, and the bytes after it (RFC 8949, section 4.2.1; an array of the body,
    /// the witness set and null). Malformed where no transaction's text stands there, OutOfMemory where memory ran out
    /// before that was known: memory is asked for by inputs, outputs, mints, signatures and scripts alone, and only
    /// where the bytes begin with the head of an array of three. Linear in the bytes of the text; the body's are hashed
    /// where they stand.
    pub fn read(alloc: Global, bytes: &[u8]) -> Result<(Tx, &[u8]), CborFault>
        ensures found { IfOk result (λ x. BeginsWithText (SpellsTransaction x.0) bytes.now x.1.now) }
        ensures malformed { IfErr result (λ fault. IfMalformed fault ((tx : model.Transaction) (rest : List ℕ) →
            BeginsWithText (SpellsTransaction tx) bytes.now rest → ⊥)) }
        ensures want { IfErr result (λ fault. IfWant fault ((tx : model.Transaction) (rest : List ℕ) →
            BeginsWithText (SpellsTransaction tx) bytes.now rest → IsBare tx → ⊥)) }
        ensures begins { IfErr result (λ fault. IfWant fault (BeginsLikeTransaction bytes.now)) }
    {
        Tx::first(alloc, MAX_SCRIPT_NESTING, bytes)
    }

    /// The transaction whose text the bytes are, all of them (RFC 8949, section 4.2.1). Malformed where they are no
    /// transaction's text, OutOfMemory as [`Tx::read`]. Linear in the bytes.
    ///
    /// ```text
    /// let tx = Tx::decode(alloc, &bytes)?;
    /// println!(rt; "{} pays {} lovelace", tx.id(), tx.fee())?;
    /// ```
    pub fn decode(alloc: Global, bytes: &[u8]) -> Result<Tx, CborFault>
        ensures found { IfOk result (λ tx. SpellsTransaction tx bytes.now) }
        ensures malformed { IfErr result (λ fault. IfMalformed fault ((tx : model.Transaction) →
            SpellsTransaction tx bytes.now → ⊥)) }
        ensures want { IfErr result (λ fault. IfWant fault ((tx : model.Transaction) →
            SpellsTransaction tx bytes.now → IsBare tx → ⊥)) }
        ensures begins { IfErr result (λ fault. IfWant fault (BeginsLikeTransaction bytes.now)) }
    {
        let (tx, rest) = Tx::read(alloc, bytes)?;
        if !rest.is_empty() {
            return Err(CborFault::Malformed);
        }
        Ok(tx)
    }

    /// Writes body, witness set and null after the bytes. At Err a part of that may stand there.
    fn write_parts(&self, out: &mut Vec<u8>) -> Result<(), AllocError>
        ensures ok { OnOk result (out.new.items ≡ out.old.items ++ text_of (item_of_transaction self.now)) }
        ensures keeps { Keeps out.old.items out.new.items }
        ensures full { OnErr result (vec_capacity out.old < vec_len out.old +
            length (text_of (item_of_transaction self.now))) }
        ensures capacity { vec_capacity out.old ≤ vec_capacity out.new }
        ensures spelled { SpellsTransaction self.now (text_of (item_of_transaction self.now)) }
    {
        let (body, witnesses) = (&self.body, &self.witnesses);
        cbor::write_array(out, 3)?;
        body.write(out)?;
        witnesses.write(out)?;
        cbor::write_null(out)
    }

    /// Writes the text of the transaction after the bytes (RFC 8949, section 4.2.1), in time linear in it. Err where
    /// memory runs out, which it does not where the vector has room for the text: the bytes stay as they were.
    pub fn write(&self, out: &mut Vec<u8>) -> Result<(), AllocError>
        ensures ok { OnOk result (Writes (SpellsTransaction self.now) out.old.items out.new.items) }
        ensures err { OnErr result (out.new.items ≡ out.old.items) }
        ensures full { OnErr result (vec_capacity out.old < vec_len out.old +
            length (text_of (item_of_transaction self.now))) }
        ensures capacity { vec_capacity out.old ≤ vec_capacity out.new }
    {
        let start = out.len();
        let written = self.write_parts(out);
        if written.is_err() {
            out.truncate(start);
        }
        written
    }

    /// The text of the transaction (RFC 8949, section 4.2.1). Err where memory runs out. Linear in the text.
    pub fn encode(&self) -> Result<Vec<u8>, AllocError>
        ensures { IfOk result (λ text. SpellsTransaction self.now text.items) }
    {
        let mut text = Vec::new(self.alloc);
        self.write(&mut text)?;
        Ok(text)
    }

    /// An equal transaction. Err where memory runs out. Linear in the transaction; nothing is hashed again.
    pub fn try_clone(&self) -> Result<Tx, AllocError>
        ensures { IfOk result (λ copy. copy ≡ self.now) }
    {
        Ok(Tx {
            alloc: self.alloc,
            id: self.id,
            size: self.size,
            body: clone_body(self.alloc, &self.body)?,
            witnesses: clone_witnesses(self.alloc, &self.witnesses)?,
        })
    }

    /// The identifier, which is also what keys sign: SHA-256 (FIPS 180-4) of the body's text. It is kept: constant
    /// time.
    pub fn id(&self) -> TxId
        ensures is { result.bytes ≡ transaction_id_of self.now }
        // The transaction has a text, so what is said of such transactions is said of it.
        ensures spelled { SpellsTransaction self.now (text_of (item_of_transaction self.now)) }
    {
        self.id
    }

    /// The size: how many bytes the text has, the witness set included. It is kept: constant time.
    pub fn size(&self) -> u64
        ensures { result ≡ size_of self.now }
    {
        self.size
    }

    /// How deep the text of the transaction nests (RFC 8949, items in one another): 3 to 64. In a block it stands two
    /// items deeper. Linear in the outputs and the scripts. No memory is taken.
    pub fn nesting(&self) -> usize
        ensures deep { result ≡ nesting (item_of_transaction self.now) }
        ensures within { result ≤ nesting_limit }
        // The transaction has a text, whose nesting that is.
        ensures spelled { SpellsTransaction self.now (text_of (item_of_transaction self.now)) }
    {
        1 + self.body.nesting().max(self.witnesses.nesting())
    }

    /// What is spent, in strictly rising order. Copies nothing.
    pub fn inputs(&self) -> &[Input]
        ensures { map input_of result.now ≡ self.now.inputs }
    {
        &self.body.inputs
    }

    /// What is left to be spent, in order: at most 65,536. Copies nothing.
    pub fn outputs(&self) -> &[Output]
        ensures { map output_of result.now ≡ self.now.outputs }
    {
        &self.body.outputs
    }

    /// The fee, in lovelace.
    pub fn fee(&self) -> u64
        ensures { result ≡ self.now.fee }
    {
        self.body.fee
    }

    /// The slots in which the transaction holds.
    pub fn interval(&self) -> Interval
        ensures { interval_of result ≡ interval_of_transaction self.now }
    {
        Interval {
            start: self.body.start,
            end: self.body.end,
        }
    }

    /// What is minted and burned. Copies nothing.
    pub fn mint(&self) -> &Mint
        ensures { result.now ≡ self.now.mint }
    {
        &self.body.mint
    }

    /// The signatures with their keys, whose bytes rise strictly. Copies nothing.
    pub fn signatures(&self) -> &[KeyWitness]
        ensures { map witness_of result.now ≡ self.now.signatures }
    {
        &self.witnesses.signatures
    }

    /// The scripts, whose hashes rise strictly. Copies nothing.
    pub fn scripts(&self) -> &[Script]
        ensures { result.now ≡ self.now.scripts }
    {
        &self.witnesses.scripts
    }
}

/// A transaction none of whose scripts, which stand three items deep in it, reaches deeper than `depth`, nor deeper
/// than 64. What else is in a transaction nests at most 8 deep, and is not held against a lower `depth`.
impl Decode for Tx {
    ghost use Rattle.model.specs.Transaction.{Transaction};
    ghost use Rattle.tx.specs.TransactionReading.{nested_transaction_at};

    ghost Plain = { Transaction };

    ghost plain = { λ t. t };

    ghost decoded_at = { nested_transaction_at };

    #[tactic(auto, unfolding(crate::specs::TransactionReading::nested_transaction_at))]
    fn decode(alloc: Global, depth: usize, bytes: &[u8]) -> Result<(Tx, &[u8]), CborFault> {
        Tx::first(alloc, depth.min(64).saturating_sub(3), bytes)
    }
}

/// The text of a transaction is its own.
impl Encode for Tx {
    ghost use Rattle.model.specs.Transaction.{item_of_transaction};

    ghost item_of = { item_of_transaction };

    fn write(&self, out: &mut Vec<u8>) -> Result<(), AllocError> {
        Tx::write(self, out)
    }
}
