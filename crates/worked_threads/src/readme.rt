use chaindb::{ArriveReply, Core, Ed25519, Genesis, Instruction};

/// Has a block arrive at a new node, whose signatures are those of Ed25519 whatever scheme the file names
/// (`GenesisDocument` reads that too), and prints what a follower is told.
pub fn follow(rt: &(impl AllocGlobal + Print), text: &str, bytes: &[u8]) -> anyhow::Result<()> {
    let genesis = Genesis::from_toml(rt.alloc(), text)?;
    let mut core = Core::<Ed25519>::new(rt.alloc(), genesis)?;
    let follower = core.open()?;
    match core.arrive(bytes)? {
        ArriveReply::Kept { back, added } => println!(rt; "{back} rolled back, {added} put on")?,
        ArriveReply::Refused(refusal) => println!(rt; "refused: {refusal}")?,
    }
    match core.next(follower)? {
        Some(Instruction::AddBlock(block)) => println!(rt; "put on block {}", block.number())?,
        Some(Instruction::RollBack(point)) => println!(rt; "go back to block {}", point.number)?,
        None => println!(rt; "nothing is new")?,
    }
    println!(rt; "the chain ends in block {}", core.tip().number)?;
    println!(rt;
        "{} outputs, {} lovelace of fees",
        core.utxo().len(),
        core.fees()
    )?;
    Ok(())
}
