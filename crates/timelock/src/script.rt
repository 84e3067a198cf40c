//! Scripts that have a text, with their hash.

ghost use Rattle.std.specs.Prelude.{◌≡◌, ◌++◌, ◌↔◌, IsTrue, ℕ, List, length, map, ◌<◌, ◌≤◌, ◌+◌, IfOk, IfErr};
ghost use Rattle.std.specs.Prelude.{OnOk, OnErr, vec_len, vec_capacity};
ghost use Rattle.model.specs.Limits.{nesting_limit};
ghost use Rattle.model.specs.Cbor.{text_of, nesting};
ghost use Rattle.model.specs.Script as model;
ghost use Rattle.model.specs.Script.{item_of_script, SpellsScript, script_hash_of, Holds};
ghost use Rattle.cbor.specs.Gives.{Gives, GivesNo, IfMalformed, IfWant};
ghost use Rattle.cbor.specs.Texts.{BeginsWithText, Writes};
ghost use Rattle.timelock.specs.View.{timelock_of, interval_of, key_bytes};
ghost use Rattle.timelock.specs.Reading.{script_at};
ghost use Rattle.timelock.specs.Bare.{IsBareScript, BeginsLikeScript};
ghost use Rattle.timelock.specs.Made.{IsRefused};

use crate::copying::clone_timelock;
use crate::fault::ScriptFault;
use crate::fitting::fits;
use crate::holding::is_met;
use crate::interval::Interval;
use crate::nesting::nesting_of;
use crate::reading::timelock;
use crate::timelock::Timelock;
use crate::writing::write_timelock;
use cbor::{CborFault, Decode, Encode};
use ident::{KeyHash, ScriptHash};
use std::alloc::{AllocError, Global};
use std::marker::Model;

/// How many timelocks may stand in one another: each nests two items deep, and items nest at most 64 deep.
const MAX_DEPTH: usize = 32;

/// A native script that has a text. Its hash was computed once, when it was read or made, and is kept.
///
/// ```text
/// let key = KeyHash::of_key(&[1; 32]);
/// let members = vec![in alloc; Timelock::RequireSignature(key), Timelock::RequireTimeStart(5)]?;
/// let script = Script::new(alloc, Timelock::RequireAllOf(Timelocks::from_vec(members)))?;
/// let text = script.encode()?; // 42 bytes: 82 01 82, 82 00 58 20 with the 32 bytes of `key`, 82 04 05
/// let policy = script.hash(); // daacb76f.., the SHA-256 of a byte 0 and the text
/// let early = script.holds(&[key], Interval { start: Some(4), end: None }); // false: it may be in slot 4
/// let open = script.holds(&[key], Interval { start: None, end: None }); // false: it may be in any slot
/// let unsigned = script.holds(&[], Interval { start: Some(5), end: None }); // false: no key signed
/// let holds = script.holds(&[key], Interval { start: Some(5), end: None }); // true
/// ```
#[derive(Debug, Drop)]
pub struct Script {
    alloc: Global,
    hash: ScriptHash,
    timelock: Timelock,
}

impl Model for Script {
    ghost use Rattle.model.specs.Script.{Script};
    ghost use Rattle.model.specs.Codes.{coded_script};

    ghost Value = { Script };

    ghost coded = { coded_script };

    ghost use Rattle.timelock.specs.Held.{script_of, IsHeldScript};

    ghost view = { script_of };

    ghost invariant = { IsHeldScript };
}

impl Script {
    /// The script of this timelock. Err `TooDeep` where more than 32 timelocks stand in one another, so that it has no
    /// text; that is known before memory is asked for. Linear in the text, which is written once to be hashed.
    pub fn new(alloc: Global, timelock: Timelock) -> Result<Script, ScriptFault>
        ensures ok { IfOk result (λ script. script ≡ timelock_of timelock) }
        ensures err { IfErr result (λ fault. IsRefused fault (timelock_of timelock)) }
    {
        if !fits(MAX_DEPTH, &timelock) {
            return Err(ScriptFault::TooDeep);
        }
        let mut text = Vec::new(alloc);
        write_timelock(&mut text, &timelock)?;
        let hash = ScriptHash::of_script(&text);
        Ok(Script {
            alloc,
            hash,
            timelock,
        })
    }

    /// The script that stands first, of which at most `depth` timelocks stand in one another, and the bytes after it.
    fn first(alloc: Global, depth: usize, bytes: &[u8]) -> Result<(Script, &[u8]), CborFault>
        requires { depth ≤ 32 }
        ensures exact { Gives (λ x. (x.0, x.1.now)) result (script_at depth bytes.now) }
        ensures want { IfErr result (λ fault. IfWant fault
            (GivesNo (λ x. IsBareScript x.0) (script_at depth bytes.now))) }
        ensures begins { IfErr result (λ fault. IfWant fault (BeginsLikeScript bytes.now)) }
    {
        let (timelock, rest) = timelock(alloc, depth, bytes)?;
        let (text, _) = bytes.split_at(bytes.len() - rest.len());
        let hash = ScriptHash::of_script(text);
        let script = Script {
            alloc,
            hash,
            timelock,
        };
        Ok((script, rest))
    }

    /// The script whose text stands first, and the bytes after it (RFC 8949, section 4.2.1). Malformed where no
    /// script's text stands there, OutOfMemory where memory ran out before that was known: scripts that stand in others
    /// alone ask for memory, and none is asked for where the bytes don't begin with the head of an array of two or
    /// three. Linear in the bytes of the text, which are hashed where they stand.
    ///
    /// ```text
    /// let (script, rest) = Script::read(alloc, b"\x82\x04\x05\xf6")?; // from slot 5 on, and null after it
    /// assert!(script.holds(&[], Interval { start: Some(5), end: None }));
    /// ```
    pub fn read(alloc: Global, bytes: &[u8]) -> Result<(Script, &[u8]), CborFault>
        ensures found { IfOk result (λ x. BeginsWithText (SpellsScript x.0) bytes.now x.1.now) }
        ensures malformed { IfErr result (λ fault. IfMalformed fault ((script : model.Script) (rest : List ℕ) →
            BeginsWithText (SpellsScript script) bytes.now rest → ⊥)) }
        ensures want { IfErr result (λ fault. IfWant fault ((script : model.Script) (rest : List ℕ) →
            BeginsWithText (SpellsScript script) bytes.now rest → IsBareScript script → ⊥)) }
        ensures begins { IfErr result (λ fault. IfWant fault (BeginsLikeScript bytes.now)) }
    {
        Script::first(alloc, MAX_DEPTH, bytes)
    }

    /// The script whose text the bytes are, all of them (RFC 8949, section 4.2.1). Malformed where they are no script's
    /// text, OutOfMemory as [`Script::read`]. Linear in the bytes.
    pub fn decode(alloc: Global, bytes: &[u8]) -> Result<Script, CborFault>
        ensures found { IfOk result (λ script. SpellsScript script bytes.now) }
        ensures malformed { IfErr result (λ fault. IfMalformed fault ((script : model.Script) →
            SpellsScript script bytes.now → ⊥)) }
        ensures want { IfErr result (λ fault. IfWant fault ((script : model.Script) →
            SpellsScript script bytes.now → IsBareScript script → ⊥)) }
        ensures begins { IfErr result (λ fault. IfWant fault (BeginsLikeScript bytes.now)) }
    {
        let (script, rest) = Script::read(alloc, bytes)?;
        if !rest.is_empty() {
            return Err(CborFault::Malformed);
        }
        Ok(script)
    }

    /// Writes the text of the script after the bytes (RFC 8949, section 4.2.1), in time linear in it. Err where memory
    /// runs out, which it does not where the vector has room for the text: the bytes stay as they were.
    pub fn write(&self, out: &mut Vec<u8>) -> Result<(), AllocError>
        ensures ok { OnOk result (Writes (SpellsScript self.now) out.old.items out.new.items) }
        ensures err { OnErr result (out.new.items ≡ out.old.items) }
        ensures full { OnErr result (vec_capacity out.old < vec_len out.old +
            length (text_of (item_of_script self.now))) }
        ensures capacity { vec_capacity out.old ≤ vec_capacity out.new }
    {
        let start = out.len();
        let written = write_timelock(out, &self.timelock);
        if written.is_err() {
            out.truncate(start);
        }
        written
    }

    /// The text of the script (RFC 8949, section 4.2.1). Err where memory runs out. Linear in the text.
    pub fn encode(&self) -> Result<Vec<u8>, AllocError>
        ensures { IfOk result (λ text. SpellsScript self.now text.items) }
    {
        let mut text = Vec::new(self.alloc);
        self.write(&mut text)?;
        Ok(text)
    }

    /// The hash of the script, which is also the policy that it governs: SHA-256 (FIPS 180-4) of a byte 0 and the
    /// script's text. It is kept: constant time.
    pub fn hash(&self) -> ScriptHash
        ensures { result.bytes ≡ script_hash_of self.now }
    {
        self.hash
    }

    /// How deep the script's text nests (RFC 8949, items in one another): 2 to 64, and 2 more than the deepest of the
    /// scripts that stand in it. Linear in the script. No memory is taken.
    pub fn nesting(&self) -> usize
        ensures deep { result ≡ nesting (item_of_script self.now) }
        ensures within { result ≤ nesting_limit }
        ensures spelled { SpellsScript self.now (text_of (item_of_script self.now)) }
    {
        nesting_of(&self.timelock)
    }

    /// What the script asks for, as a tree. Copies nothing.
    pub fn timelock(&self) -> &Timelock
        ensures { timelock_of result.now ≡ self.now }
    {
        &self.timelock
    }

    /// Whether the script holds for a transaction with this interval that the keys of these hashes signed. The slot of
    /// the block that the transaction stands in is not asked. No memory is taken. Linear in the script, times the
    /// hashes where signatures are asked for.
    pub fn holds(&self, keys: &[KeyHash], interval: Interval) -> bool
        ensures { IsTrue result ↔ Holds self.now (map key_bytes keys.now) (interval_of interval) }
    {
        is_met(&self.timelock, keys, interval)
    }

    /// An equal script. Err where memory runs out. Linear in the script; the hash is not computed again.
    pub fn try_clone(&self) -> Result<Script, AllocError>
        ensures { IfOk result (λ copy. copy ≡ self.now) }
    {
        Ok(Script {
            alloc: self.alloc,
            hash: self.hash,
            timelock: clone_timelock(self.alloc, &self.timelock)?,
        })
    }
}

/// A script whose text nests at most `depth` deep, and at most 64 deep in any case.
impl Decode for Script {
    ghost use Rattle.model.specs.Script.{Script};
    ghost use Rattle.timelock.specs.Reading.{nested_script_at};

    ghost Plain = { Script };

    ghost plain = { λ s. s };

    ghost decoded_at = { nested_script_at };

    #[tactic(auto, unfolding(crate::specs::Reading::nested_script_at))]
    fn decode(alloc: Global, depth: usize, bytes: &[u8]) -> Result<(Script, &[u8]), CborFault> {
        Script::first(alloc, (depth / 2).min(MAX_DEPTH), bytes)
    }
}

/// The text of a script is its own.
impl Encode for Script {
    ghost use Rattle.model.specs.Script.{item_of_script};

    ghost item_of = { item_of_script };

    fn write(&self, out: &mut Vec<u8>) -> Result<(), AllocError> {
        Script::write(self, out)
    }
}
