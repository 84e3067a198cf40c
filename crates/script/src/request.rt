//! What a line asks of the node.

ghost use Rattle.std.specs.Prelude.{◌≡◌, true};
ghost use Rattle.script.specs.Text.{is_name};

use crate::line::Form;
use crate::name::Name;
use crate::part::Owner;
use ident::{BlockHash, Point, TxId};
use tx::Address;

/// A key by its name, with its address.
#[derive(Debug, Drop)]
pub struct KeyAddress {
    pub name: Vec<u8>,
    pub address: Address,
    pub ghost named: { is_name name.items ≡ true },
}

/// What a line asks of the node, once its definition is made. Its names are parts of the line.
#[derive(Debug, Drop)]
pub enum Request<'a> {
    /// Nothing: the line is empty, a comment or a definition.
    Nothing,
    /// The bytes of a name arrive.
    Arrive {
        form: Form,
        name: Name<'a>,
    },
    /// The transaction of a name is submitted.
    Submit {
        name: Name<'a>,
    },
    /// A block is forged in a slot. Its name is free.
    Forge {
        name: Name<'a>,
        slot: u64,
    },
    /// A follower is opened. Its name is free, and has its room.
    Open {
        name: Name<'a>,
    },
    /// A follower is opened with an index of what these keys have. Its name is free, and has its room. The keys
    /// stand in the order of the line's words.
    Watch {
        name: Name<'a>,
        keys: Vec<KeyAddress>,
    },
    /// What is the follower of this name and number told next?
    Next {
        name: Name<'a>,
        id: u64,
    },
    /// The follower of this name and number is to be set to the first of these points that is on the selected chain.
    /// They stand in the order of the line's words.
    Forward {
        name: Name<'a>,
        id: u64,
        points: Vec<Point>,
    },
    /// The follower of this name and number is closed.
    Close {
        name: Name<'a>,
        id: u64,
    },
    /// The block of this name and hash is to be kept no more.
    Discard {
        name: Name<'a>,
        hash: BlockHash,
    },
    /// Where does the selected chain end?
    Tip,
    /// What waits in the mempool?
    Mempool,
    /// What is unspent on the selected chain?
    Utxo,
    /// Why isn't the block of this name and hash selected?
    Why {
        name: Name<'a>,
        hash: BlockHash,
    },
    /// Where does the transaction of this name and identifier stand?
    Where {
        name: Name<'a>,
        id: TxId,
    },
    /// How much is unspent at the address of this owner?
    Balance {
        owner: Owner<'a>,
        address: Address,
    },
}
