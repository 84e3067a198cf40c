//! Readers of the parts of a block's text (RFC 8949, sections 3 and 4.2.1): from a slice to what stands first and the
//! bytes after it. Transactions alone ask for memory; the time is linear in the bytes.

ghost use Rattle.std.specs.Prelude.{◌≡◌, ℕ, List, [], Some, option_map, IfOk, IfErr, OnErr};
ghost use Rattle.model.specs.Cbor.{text_of};
ghost use Rattle.model.specs.Block.{Block, item_of_header, item_of_transactions};
ghost use Rattle.cbor.specs.Gives.{Gives, IfWant};
ghost use Rattle.block.specs.Read.{BeginsLikeBlock};
ghost use Rattle.block.specs.View.{bytes_of, header_of};
ghost use Rattle.block.specs.PartsView.{parts_block};
ghost use Rattle.block.specs.Reading.{previous_at, header_at, transactions_at, block_at};

use crate::header::{Header, NUMBER_LIMIT};
use cbor::CborFault;
use ident::{BlockHash, BodyHash};
use std::alloc::Global;
use tx::{MAX_TX_NESTING, Tx};

/// The hash of the block before, or null where there is none.
#[tactic(auto, unfolding(crate::specs::Reading::previous_at, cbor::specs::Shapes::optional_at))]
fn previous(bytes: &[u8]) -> Option<(Option<BlockHash>, &[u8])>
    ensures { option_map (λ x. (option_map bytes_of x.0, x.1.now)) result ≡ previous_at bytes.now }
{
    if let Some(rest) = cbor::null(bytes) {
        return Some((None, rest));
    }
    let (hash, rest) = cbor::fixed::<32>(bytes)?;
    Some((Some(BlockHash::from_bytes(hash)), rest))
}

#[tactic(auto, unfolding(crate::specs::Reading::header_at, cbor::specs::Shapes::as_at, cbor::specs::Shapes::array_at, cbor::specs::Shapes::both_at))]
fn header(bytes: &[u8]) -> Option<(Header, &[u8])>
    ensures { option_map (λ x. (header_of x.0, x.1.now)) result ≡ header_at bytes.now }
{
    let members = cbor::members(bytes, 4)?;
    let (number, rest) = cbor::bounded(members, NUMBER_LIMIT)?;
    let (slot, rest) = cbor::bounded(rest, NUMBER_LIMIT)?;
    let (previous, rest) = previous(rest)?;
    let (hash, rest) = cbor::fixed::<32>(rest)?;
    let header = Header {
        number,
        slot,
        previous,
        body_hash: BodyHash::from_bytes(hash),
    };
    Some((header, rest))
}

/// The transactions of a body, and the bytes after it. An empty body asks for no memory.
#[tactic(auto, using(tx::proofs::ForCallers::same_list), unfolding(crate::specs::Reading::transactions_at, cbor::specs::Shapes::list_array_at))]
fn transactions(alloc: Global, bytes: &[u8]) -> Result<(Vec<Tx>, &[u8]), CborFault>
    ensures exact { Gives (λ x. (x.0.items, x.1.now)) result (transactions_at bytes.now) }
    ensures some { OnErr result ((rest : List ℕ) → transactions_at bytes.now ≡ Some ([], rest) → ⊥) }
{
    cbor::list_array::<Tx>(alloc, MAX_TX_NESTING, bytes)
}

/// A block's header and transactions, and the two parts of its text that are hashed.
#[derive(Drop)]
pub struct Parts<'a> {
    pub header: Header,
    pub transactions: Vec<Tx>,
    pub header_text: &'a [u8],
    pub body_text: &'a [u8],
}

/// The parts of the block that the bytes spell. Malformed where they spell no block. Where the body is empty, and where
/// the bytes don't begin with the head of an array of two, no memory is asked for.
#[tactic(auto, unfolding(crate::specs::Reading::block_at, crate::specs::Reading::parts_at, cbor::specs::Shapes::as_at, cbor::specs::Shapes::array_at, cbor::specs::Shapes::both_at))]
pub fn parts_of(alloc: Global, bytes: &[u8]) -> Result<Parts<'_>, CborFault>
    ensures exact { Gives parts_block result (block_at bytes.now) }
    ensures some { OnErr result ((b : Block) → block_at bytes.now ≡ Some b → b.transactions ≡ [] → ⊥) }
    ensures begins { IfErr result (λ fault. IfWant fault (BeginsLikeBlock bytes.now)) }
    ensures header_text { IfOk result (λ p. p.header_text.now ≡ text_of (item_of_header (header_of p.header))) }
    ensures body_text { IfOk result (λ p. p.body_text.now ≡ text_of (item_of_transactions p.transactions.items)) }
{
    let members = cbor::members(bytes, 2).ok_or(CborFault::Malformed)?;
    let (header, body_text) = header(members).ok_or(CborFault::Malformed)?;
    let (transactions, after) = transactions(alloc, body_text)?;
    if !after.is_empty() {
        return Err(CborFault::Malformed);
    }
    let (header_text, _) = members.split_at(members.len() - body_text.len());
    Ok(Parts {
        header,
        transactions,
        header_text,
        body_text,
    })
}
