//! Witness sets (Shelley-MA): the signatures and scripts by which a transaction may do what it does.

ghost use Rattle.std.specs.Prelude.{◌≡◌, ◌<◌, ◌≤◌, ◌+◌, ◌++◌, [], length, map, OnOk, OnErr, IfErr, vec_capacity};
ghost use Rattle.model.specs.Cbor.{text_of, map_of, pairs_of, pairs_text, nesting, pairs_nesting};
ghost use Rattle.model.specs.Transaction.{unless_empty};
ghost use Rattle.cbor.specs.Gives.{Gives, GivesNo, IfWant};
ghost use Rattle.cbor.specs.Texts.{Keeps};
ghost use Rattle.tx.specs.View.{witness_of};
ghost use Rattle.tx.specs.TransactionReading.{signatures_field_at, scripts_field_at, witnesses_at};
ghost use Rattle.tx.specs.Bare.{AreBareWitnesses};
ghost use Rattle.tx.specs.WitnessesView.{witnesses_of, witness_entries, signatures_item, scripts_item};

use crate::key_witness::KeyWitness;
use crate::keys::{SCRIPTS, SIGNATURES};
use crate::nesting::scripts_nesting;
use crate::{lists, witness_writer};
use cbor::CborFault;
use std::alloc::{AllocError, Global};
use timelock::Script;

/// How deep the array of the signatures nests, where there are some: each is an array of two byte strings.
const SIGNATURES_NESTING: usize = 3;

/// The witnesses of a transaction.
#[derive(Debug, Drop)]
pub struct Witnesses {
    /// Signatures of the identifier, whose keys rise strictly.
    pub signatures: Vec<KeyWitness>,
    /// Scripts, whose hashes rise strictly.
    pub scripts: Vec<Script>,
}

/// The signatures where their entry stands next, or else none; how many entries are left, and the bytes from there on.
#[tactic(auto, unfolding(crate::specs::TransactionReading::signatures_field_at, cbor::specs::Shapes::as_fields_at, cbor::specs::Shapes::optional_field_at))]
fn read_signatures(
    alloc: Global,
    left: u64,
    bytes: &[u8],
) -> Result<(Vec<KeyWitness>, u64, &[u8]), CborFault>
    ensures exact { Gives (λ x. (map witness_of x.0.items, x.1, x.2.now)) result (signatures_field_at left bytes.now) }
    ensures want { IfErr result (λ fault. IfWant fault (GivesNo (λ x. x.0 ≡ []) (signatures_field_at left bytes.now))) }
{
    let Some((after, text)) = cbor::field_key(left, SIGNATURES, bytes) else {
        return Ok((Vec::new(alloc), left, bytes));
    };
    let (signatures, rest) = lists::read_signatures(alloc, text)?;
    Ok((signatures, after, rest))
}

/// The scripts where their entry stands next, or else none; how many entries are left, and the bytes from there on.
#[tactic(auto, unfolding(crate::specs::TransactionReading::scripts_field_at, cbor::specs::Shapes::as_fields_at, cbor::specs::Shapes::optional_field_at))]
fn read_scripts(
    alloc: Global,
    depth: usize,
    left: u64,
    bytes: &[u8],
) -> Result<(Vec<Script>, u64, &[u8]), CborFault>
    ensures exact { Gives (λ x. (x.0.items, x.1, x.2.now)) result (scripts_field_at depth left bytes.now) }
    ensures want { IfErr result (λ fault. IfWant fault
        (GivesNo (λ x. x.0 ≡ []) (scripts_field_at depth left bytes.now))) }
{
    let Some((after, text)) = cbor::field_key(left, SCRIPTS, bytes) else {
        return Ok((Vec::new(alloc), left, bytes));
    };
    let (scripts, rest) = lists::read_scripts(alloc, depth, text)?;
    Ok((scripts, after, rest))
}

impl Witnesses {
    /// The witness set whose text stands first, each of whose scripts nests at most `depth` deep, and the bytes after
    /// it (RFC 8949, section 4.2.1; a map with the keys in rising order). Malformed where no such text stands there,
    /// OutOfMemory where memory ran out before that was known. Linear in the bytes of the text.
    #[tactic(auto, unfolding(crate::specs::TransactionReading::witnesses_at, cbor::specs::Shapes::record_at, cbor::specs::Shapes::fields_at))]
    pub fn read(alloc: Global, depth: usize, bytes: &[u8]) -> Result<(Witnesses, &[u8]), CborFault>
        ensures exact { Gives (λ x. (witnesses_of x.0, x.1.now)) result (witnesses_at depth bytes.now) }
        ensures want { IfErr result (λ fault. IfWant fault
            (GivesNo (λ x. AreBareWitnesses x.0) (witnesses_at depth bytes.now))) }
    {
        let (left, rest) = cbor::map(bytes).ok_or(CborFault::Malformed)?;
        let (signatures, left, rest) = read_signatures(alloc, left, rest)?;
        let (scripts, left, rest) = read_scripts(alloc, depth, left, rest)?;
        if left != 0 {
            return Err(CborFault::Malformed);
        }
        let witnesses = Witnesses {
            signatures,
            scripts,
        };
        Ok((witnesses, rest))
    }

    /// How deep the entry of the signatures nests, or 0 where it is left out.
    fn signatures_nesting(&self) -> usize
        ensures deep { result ≡
            pairs_nesting (pairs_of (unless_empty 0 signatures_item (witnesses_of self.now).0)) }
        ensures within { result ≤ 3 }
    {
        if self.signatures.is_empty() {
            return 0;
        }
        SIGNATURES_NESTING
    }

    /// How deep the entry of the scripts nests, or 0 where it is left out. Linear in the scripts.
    fn scripts_nesting(&self) -> usize
        ensures deep { result ≡ pairs_nesting (pairs_of (unless_empty 1 scripts_item (witnesses_of self.now).1)) }
        ensures within { result ≤ 65 }
    {
        if self.scripts.is_empty() {
            return 0;
        }
        1 + scripts_nesting(&self.scripts)
    }

    /// How deep the text of the witness set nests: 1 to 66. Linear in the scripts.
    pub fn nesting(&self) -> usize
        ensures deep { result ≡ nesting (map_of (witness_entries (witnesses_of self.now))) }
        ensures within { result ≤ 66 }
    {
        1 + self.signatures_nesting().max(self.scripts_nesting())
    }

    /// How many entries the map of the witness set has.
    fn entries(&self) -> u64
        ensures { result ≡ length (witness_entries (witnesses_of self.now)) }
    {
        u64::from(!self.signatures.is_empty()) + u64::from(!self.scripts.is_empty())
    }

    /// Writes the entries, one after the other.
    fn write_entries(&self, out: &mut Vec<u8>) -> Result<(), AllocError>
        ensures ok { OnOk result (out.new.items ≡ out.old.items ++
            pairs_text (pairs_of (witness_entries (witnesses_of self.now)))) }
        ensures keeps { Keeps out.old.items out.new.items }
        ensures full { OnErr result (vec_capacity out.old < length out.old.items +
            length (pairs_text (pairs_of (witness_entries (witnesses_of self.now))))) }
        ensures capacity { vec_capacity out.old ≤ vec_capacity out.new }
    {
        witness_writer::write_signatures_field(out, &self.signatures)?;
        witness_writer::write_scripts_field(out, &self.scripts)
    }

    /// Writes the entries after their number. At Err a part of that may stand there.
    fn write_parts(&self, out: &mut Vec<u8>) -> Result<(), AllocError>
        ensures ok { OnOk result (out.new.items ≡ out.old.items ++
            text_of (map_of (witness_entries (witnesses_of self.now)))) }
        ensures keeps { Keeps out.old.items out.new.items }
        ensures full { OnErr result (vec_capacity out.old < length out.old.items +
            length (text_of (map_of (witness_entries (witnesses_of self.now))))) }
        ensures capacity { vec_capacity out.old ≤ vec_capacity out.new }
    {
        cbor::write_map(out, self.entries())?;
        self.write_entries(out)
    }

    /// Writes the text of the witness set after the bytes (RFC 8949, section 4.2.1), in time linear in it. Err where
    /// memory runs out, which it does not where the vector has room for the text: the bytes stay as they were.
    pub fn write(&self, out: &mut Vec<u8>) -> Result<(), AllocError>
        ensures ok { OnOk result (out.new.items ≡ out.old.items ++
            text_of (map_of (witness_entries (witnesses_of self.now)))) }
        ensures err { OnErr result (out.new.items ≡ out.old.items) }
        ensures full { OnErr result (vec_capacity out.old < length out.old.items +
            length (text_of (map_of (witness_entries (witnesses_of self.now))))) }
        ensures capacity { vec_capacity out.old ≤ vec_capacity out.new }
    {
        let start = out.len();
        let written = self.write_parts(out);
        if written.is_err() {
            out.truncate(start);
        }
        written
    }
}
