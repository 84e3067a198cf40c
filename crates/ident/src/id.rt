//! Identifiers, of each kind.

ghost use Rattle.std.specs.Prelude.{◌≡◌, ◌<◌, ◌∷◌, ℕ, ⊤, length, slice_index};
ghost use Rattle.sha2.specs.Sha256.{sha256};
ghost use Rattle.model.specs.Limits.{hash_size};

use crate::digest;
use crate::fault::IdentFault;
use std::alloc::AllocError;
use std::fmt;
use std::marker::PhantomData;
use std::str::FromStr;

/// An identifier of this kind: 32 bytes. Ordered as bytes.
#[derive_where(Debug, PartialEq, Eq, PartialOrd, Ord, Hash)]
pub struct Id<Kind> {
    pub bytes: [u8; 32],
    #[derive_where(skip)]
    kind: PhantomData<Kind>,
    pub ghost sized: { length bytes ≡ hash_size },
    pub ghost fits: { (i : ℕ) → slice_index bytes i < 256 },
}

/// The kind of the hashes of blocks.
pub struct BlockKind;

/// The kind of the hashes of blocks' bodies.
pub struct BodyKind;

/// The kind of the hashes of keys.
pub struct KeyKind;

/// The kind of the hashes of scripts.
pub struct ScriptKind;

/// The kind of the identifiers of transactions.
pub struct TxKind;

/// The hash of a block: the SHA-256 digest of its header's text. Ordered as bytes.
pub type BlockHash = Id<BlockKind>;

/// The hash of a block's body: the SHA-256 digest of its text. Ordered as bytes.
pub type BodyHash = Id<BodyKind>;

/// The hash of a key: the SHA-256 digest of its 32 bytes. Ordered as bytes.
pub type KeyHash = Id<KeyKind>;

/// The hash of a script, which is also the policy that the script governs: the SHA-256 digest of a byte 0
/// and the script's text. Ordered as bytes.
pub type ScriptHash = Id<ScriptKind>;

/// The identifier of a transaction: the SHA-256 digest of its body's text. Ordered as bytes.
pub type TxId = Id<TxKind>;

impl<Kind> Copy for Id<Kind> {}

impl<Kind> Clone for Id<Kind> {
    ghost is_clone = { λ id copy. copy ≡ id };

    ghost is_infallible = { λ _. ⊤ };

    fn clone(&self) -> Result<Id<Kind>, AllocError> {
        Ok(*self)
    }
}

impl<Kind> Id<Kind> {
    /// The identifier with these bytes.
    pub fn from_bytes(bytes: [u8; 32]) -> Id<Kind>
        ensures { result.bytes ≡ bytes }
    {
        Id {
            bytes,
            kind: PhantomData,
        }
    }

    /// The 32 bytes.
    pub fn as_bytes(&self) -> &[u8; 32]
        ensures { result.now ≡ self.now.bytes }
    {
        &self.bytes
    }
}

impl Id<BlockKind> {
    /// The hash of the block whose header has this text. Takes time in proportion to the text.
    pub fn of_header(text: &[u8]) -> BlockHash
        ensures { result.bytes ≡ sha256 text.now }
    {
        BlockHash::from_bytes(digest::digest_of(text))
    }
}

impl Id<BodyKind> {
    /// The hash of the body with this text. Takes time in proportion to the text.
    pub fn of_body(text: &[u8]) -> BodyHash
        ensures { result.bytes ≡ sha256 text.now }
    {
        BodyHash::from_bytes(digest::digest_of(text))
    }
}

impl Id<KeyKind> {
    /// The hash of this key.
    pub fn of_key(key: &[u8; 32]) -> KeyHash
        ensures { result.bytes ≡ sha256 key.now }
    {
        KeyHash::from_bytes(digest::digest_of(key.as_slice()))
    }
}

impl Id<ScriptKind> {
    /// The hash of the script with this text. Takes time in proportion to the text, and allocates nothing.
    pub fn of_script(text: &[u8]) -> ScriptHash
        ensures { result.bytes ≡ sha256 (0 ∷ text.now) }
    {
        ScriptHash::from_bytes(digest::digest_of_pieces(&[0], text))
    }
}

impl Id<TxKind> {
    /// The identifier of the transaction whose body has this text. Takes time in proportion to the text.
    pub fn of_body(text: &[u8]) -> TxId
        ensures { result.bytes ≡ sha256 text.now }
    {
        TxId::from_bytes(digest::digest_of(text))
    }
}

impl<Kind> TryFrom<&[u8]> for Id<Kind> {
    ghost use Rattle.ident.specs.Bytes.{seen, sized};

    type Error = IdentFault;

    ghost try_from_gives = { λ bytes r. seen (λ id. id.bytes) r ≡ sized bytes.now };

    /// The identifier with the bytes of this slice. Err `WrongLength` where they are not 32.
    fn try_from(bytes: &[u8]) -> Result<Id<Kind>, IdentFault> {
        Ok(Id::from_bytes(digest::from_slice(bytes)?))
    }
}

impl<Kind> FromStr for Id<Kind> {
    ghost use Rattle.ident.specs.Bytes.{seen, read_hex};

    type Err = IdentFault;

    ghost from_str_gives = { λ text r. seen (λ id. id.bytes) r ≡ read_hex text };

    /// The identifier that 64 hexadecimal digits spell, in either case. Err, in this order: `OddDigits`, then
    /// `WrongLength` with half the number of digits, then `NotADigit` with the first character that is none.
    fn from_str(text: &str) -> Result<Id<Kind>, IdentFault> {
        Ok(Id::from_bytes(digest::from_hex(text)?))
    }
}

impl<Kind> fmt::Display for Id<Kind> {
    ghost use Rattle.std.specs.Prelude.{Some};
    ghost use Rattle.hex.specs.Hex.{encode_lower};

    ghost output = { λ id. Some (encode_lower id.bytes) };

    /// Writes the 64 lower case hexadecimal digits.
    fn fmt<W: fmt::Write>(&self, f: &mut fmt::Formatter<W>) -> fmt::Result {
        f.write_str(digest::hex_text(&self.bytes, &mut [0; 64]))
    }
}
