use anyhow::bail;
use chaindb::wallet::{Address, Draft, Input, KeyWitness};
use chaindb::{
    Core, Ed25519, FollowerId, Instruction, SigScheme, SubmitReply, Tip, TxId, Watch, Which,
};

/// A payment that is signed elsewhere: what the input holds is spent on it and its fee.
pub fn payment(
    rt: &impl AllocGlobal,
    input: Input,
    address: Address,
    coin: u64,
    fee: u64,
) -> anyhow::Result<Draft<KeyWitness>> {
    let mut draft = Draft::new(rt.alloc());
    draft.spend(input)?;
    draft.pay(address, coin, Vec::new(rt.alloc()))?;
    draft.set_fee(fee)?;
    Ok(draft)
}

/// The payment's bytes, with a signature that was made elsewhere of `draft.id()`.
pub fn signed(
    mut draft: Draft<KeyWitness>,
    key: [u8; 32],
    signature: [u8; 64],
) -> anyhow::Result<Vec<u8>> {
    if !Ed25519::verify(&key, draft.id()?.as_bytes(), &signature) {
        bail!("that is no signature of the payment by this key");
    }
    draft.add_signature(key, signature)?;
    Ok(draft.finish()?.encode()?)
}

/// Submits the payment. That it waits already is no fault.
pub fn submit(core: &mut Core<Ed25519>, bytes: &[u8]) -> anyhow::Result<()> {
    match core.submit(bytes)? {
        SubmitReply::Added | SubmitReply::Known => Ok(()),
        refused => bail!("{refused}"),
    }
}

/// What a wallet knows of the chain: what its follower was told.
#[derive(Drop)]
pub struct Wallet {
    follower: FollowerId,
    watch: Watch,
    k: u64,
}

impl Wallet {
    /// A wallet at a core that has no block yet and never rolls back more than k.
    pub fn new(rt: &impl AllocGlobal, core: &mut Core<Ed25519>, k: u64) -> anyhow::Result<Wallet> {
        let watch = Watch::new(rt.alloc(), Tip::genesis(), core.utxo(), k, Which::all())?;
        let follower = core.open()?;
        Ok(Wallet { follower, watch, k })
    }

    /// Takes the news, until there is none.
    fn catch_up(&mut self, core: &mut Core<Ed25519>) -> anyhow::Result<()> {
        for _ in 0..u64::MAX {
            match core.next(self.follower)? {
                Some(Instruction::AddBlock(block)) => self.watch.add_block(&block)?,
                Some(Instruction::RollBack(point)) => self.watch.roll_back(&point)?,
                None => break,
            }
        }
        Ok(())
    }

    /// Takes the news, and submits the payment again where no block has it, as a rollback may have undone it. True when
    /// it is settled: k blocks stand on its own, so it is never rolled back.
    pub fn follow(
        &mut self,
        core: &mut Core<Ed25519>,
        id: &TxId,
        bytes: &[u8],
    ) -> anyhow::Result<bool> {
        self.catch_up(core)?;
        match self.watch.transaction(id) {
            Some(found) => Ok(self.watch.tip().number.saturating_sub(found.number) >= self.k),
            None => submit(core, bytes).map(|_| false),
        }
    }
}
