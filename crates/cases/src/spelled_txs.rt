//! The texts of transactions and blocks.

use crate::spelled::{Spelled, Unread, put_number, put_slot, put_unknown};
use block::CheckedBlock;
use std::alloc::{AllocError, Global};
use tx::{Output, Tx};
use witness_pool::TestScheme;

/// The lovelace of the first output, 0 where there is none.
fn first_coin(outputs: &[Output]) -> u64 {
    match outputs.first() {
        Some(output) => output.value.coin(),
        None => 0,
    }
}

impl Spelled for Tx {
    fn read_whole(alloc: Global, bytes: &[u8]) -> Result<Tx, Unread> {
        Ok(Tx::decode(alloc, bytes)?)
    }

    fn left_behind(alloc: Global, bytes: &[u8]) -> Option<usize> {
        let (_, rest) = Tx::read(alloc, bytes).ok()?;
        Some(rest.len())
    }

    fn put_text(&self, out: &mut Vec<u8>) -> Result<(), AllocError> {
        out.extend_from_slice(&self.encode()?)
    }

    fn put_text_of_copy(&self, out: &mut Vec<u8>) -> Result<(), AllocError> {
        self.try_clone()?.write(out)
    }

    fn tell(&self, name: &str, out: &mut String) -> Result<(), AllocError> {
        let number = match name {
            "id" => return write!(out, "{}", self.id()),
            "start" => return put_slot(out, self.interval().start),
            "end" => return put_slot(out, self.interval().end),
            "size" => self.size(),
            "nesting" => self.nesting() as u64,
            "fee" => self.fee(),
            "inputs" => self.inputs().len() as u64,
            "outputs" => self.outputs().len() as u64,
            "coin" => first_coin(self.outputs()),
            "policies" => self.mint().policies().len() as u64,
            "signatures" => self.signatures().len() as u64,
            "scripts" => self.scripts().len() as u64,
            _ => return put_unknown(out),
        };
        put_number(out, number)
    }
}

impl Spelled for CheckedBlock<TestScheme> {
    // In two steps, as a live block is read that waited.
    fn read_whole(alloc: Global, bytes: &[u8]) -> Result<CheckedBlock<TestScheme>, Unread> {
        let block = block::read(alloc, bytes)?;
        match CheckedBlock::from_block(alloc, &block) {
            Ok(checked) => Ok(checked),
            Err(AllocError) => Err(Unread::OutOfMemory),
        }
    }

    // Nothing follows a block.
    fn left_behind(alloc: Global, bytes: &[u8]) -> Option<usize> {
        match block::read(alloc, bytes) {
            Ok(_) => None,
            Err(_) => Some(1),
        }
    }

    fn put_text(&self, out: &mut Vec<u8>) -> Result<(), AllocError> {
        out.extend_from_slice(self.bytes())
    }

    fn put_text_of_copy(&self, out: &mut Vec<u8>) -> Result<(), AllocError> {
        out.extend_from_slice(self.try_clone()?.bytes())
    }

    fn tell(&self, name: &str, out: &mut String) -> Result<(), AllocError> {
        let number = match name {
            "hash" => return write!(out, "{}", self.hash()),
            "number" => self.number(),
            "slot" => self.slot(),
            "transactions" => self.transactions().len() as u64,
            "body" => self.body_size() as u64,
            _ => return put_unknown(out),
        };
        put_number(out, number)
    }
}
