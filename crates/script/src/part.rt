//! What a line says that adds a part to a transaction.

ghost use Rattle.std.specs.Prelude.{◌≡◌, IfOk, None, Some, if◌then◌else◌, option_map};
ghost use Rattle.script.specs.Line.{is_quantity, parse_asset_name, parse_owner, parse_quantity};
ghost use Rattle.script.specs.AssetView.{asset_name_of};
ghost use Rattle.script.specs.PartView.{quantity_of, owner_of};

use crate::asset_words::AssetWords;
use crate::digits::Digits;
use crate::name::Name;
use crate::number::parse_number;
use draft::Signing;
use std::alloc::{AllocError, Global};

/// What unlocks an output.
#[derive(Clone, Copy, Debug)]
pub enum Owner<'a> {
    /// The key of a name.
    Key(Name<'a>),
    /// The script of a name.
    Script(Name<'a>),
}

impl<'a> Owner<'a> {
    /// The owner that two words say.
    pub fn of_words(kind: &[u8], name: &'a [u8]) -> Option<Owner<'a>>
        ensures { option_map owner_of result ≡ parse_owner kind.now name.entry.now }
    {
        let name = Name::of_word(name)?;
        if kind == b"key".as_slice() {
            Some(Owner::Key(name))
        } else if kind == b"script".as_slice() {
            Some(Owner::Script(name))
        } else {
            None
        }
    }
}

/// The name of an asset.
#[derive(Clone, Copy)]
pub enum AssetName<'a> {
    Empty,
    Digits(Digits<'a>),
}

impl<'a> AssetName<'a> {
    /// The asset name that a word says: hexadecimal digits, or `-` for the empty one.
    pub fn of_word(word: &'a [u8]) -> Option<AssetName<'a>>
        ensures { option_map asset_name_of result ≡ parse_asset_name word.entry.now }
    {
        if word == b"-".as_slice() {
            return Some(AssetName::Empty);
        }
        let digits = Digits::of_word(word)?;
        Some(AssetName::Digits(digits))
    }

    /// The bytes of the name.
    pub fn bytes(&self, alloc: Global) -> Result<Vec<u8>, AllocError>
        ensures { IfOk result (λ bytes. bytes.items ≡ asset_name_of self.now) }
    {
        match self {
            AssetName::Empty => Ok(Vec::new(alloc)),
            AssetName::Digits(digits) => digits.bytes(alloc),
        }
    }
}

/// A number that a sign may stand in front of.
#[derive(Clone, Copy)]
pub struct Quantity {
    pub negative: bool,
    pub size: u64,
}

impl Quantity {
    /// The quantity that a word says.
    pub fn of_word(word: &[u8]) -> Option<Quantity>
        ensures { option_map quantity_of result ≡ parse_quantity word.now }
    {
        match word {
            [b'-', digits @ ..] => {
                let size = parse_number(digits)?;
                Some(Quantity {
                    negative: true,
                    size,
                })
            }
            _ => {
                let size = parse_number(word)?;
                Some(Quantity {
                    negative: false,
                    size,
                })
            }
        }
    }

    /// The same as a number of 64 bits, if it is one.
    pub fn to_i64(self) -> Option<i64>
        ensures { result ≡ (if is_quantity (quantity_of self) then Some (quantity_of self) else None) }
    {
        if self.negative {
            0i64.checked_sub_unsigned(self.size)
        } else {
            i64::try_from(self.size).ok()
        }
    }
}

/// A part of a transaction.
#[derive(Clone, Copy)]
pub enum Part<'a> {
    /// An output of the genesis is spent.
    SpendGrant {
        index: u64,
    },
    /// An output of an earlier transaction is spent.
    Spend {
        tx: Name<'a>,
        index: u64,
    },
    /// An output.
    Pay {
        owner: Owner<'a>,
        coin: u64,
        assets: AssetWords<'a>,
    },
    /// The fee.
    Fee(u64),
    /// The slot from which on the transaction holds.
    From(u64),
    /// The slot before which it holds.
    Until(u64),
    /// What is minted of an asset.
    Mint {
        script: Name<'a>,
        name: AssetName<'a>,
        quantity: Quantity,
    },
    /// A key signs, well or not.
    Sign {
        key: Name<'a>,
        signing: Signing,
    },
    /// A script is supplied.
    With {
        script: Name<'a>,
    },
}
