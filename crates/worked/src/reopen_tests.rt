//! Cores that are opened on blocks that were kept.

use super::fixture::{
    MEMORY, Made, SMALL_NETWORK, after, answers, boxed, chain_of, core_on, kept, make, same,
};
use chain_core::{ArriveReply, Core, Instruction, Refusal, ReopenFault};
use genesis::Genesis;
use ident::Point;
use std::process::Abort;
use witness_pool::TestScheme;

/// The genesis of the small network.
fn small_genesis(rt: &(impl Abort + AllocGlobal)) -> Genesis {
    Genesis::from_toml(rt.alloc(), SMALL_NETWORK).expect(rt, "a genesis")
}

/// A core that is opened on these texts.
fn opened_on(rt: &(impl Abort + AllocGlobal), texts: &[Vec<u8>]) -> Box<Core<TestScheme>> {
    let core = Core::reopen(rt.alloc(), small_genesis(rt), texts);
    boxed(rt, core.expect(rt, "a chain"))
}

/// No core is opened on these texts, for the block of this number.
fn is_refused(rt: &(impl Abort + AllocGlobal), texts: &[Vec<u8>], number: u64) {
    let core = boxed(
        rt,
        Core::<TestScheme>::reopen(rt.alloc(), small_genesis(rt), texts),
    );
    let told = match &*core {
        Ok(_) => 0,
        Err(ReopenFault::InvalidBlock(number)) => *number,
        Err(ReopenFault::OutOfMemory) => u64::MAX,
    };
    same(rt, "the invalid block", told, number);
}

/// A copy of the block's text, behind the others.
fn put(rt: &(impl Abort + AllocGlobal), texts: &mut Vec<Vec<u8>>, made: &Made) {
    let text = made.text.clone().expect(rt, MEMORY);
    texts.push(text).expect(rt, MEMORY);
}

/// The texts of the core's blocks that are never rolled back.
fn immutable_texts(rt: &(impl Abort + AllocGlobal), core: &Core<TestScheme>) -> Box<Vec<Vec<u8>>> {
    let mut texts = boxed(rt, Vec::new(rt.alloc()));
    for number in 1..core.immutable().saturating_add(1) {
        let block = core.block(number).expect(rt, "a block");
        let copy = block.bytes().to_vec(rt.alloc()).expect(rt, MEMORY);
        texts.push(copy).expect(rt, MEMORY);
    }
    texts
}

/// A follower that is opened now is told these blocks first.
fn tells_from_the_first_on(rt: &impl Abort, core: &mut Core<TestScheme>, blocks: &[Vec<u8>]) {
    let follower = core.open().expect(rt, "a follower");
    for text in blocks {
        let told = match core.next(follower) {
            Ok(Some(Instruction::AddBlock(block))) => block.bytes() == text.as_slice(),
            _ => false,
        };
        assert!(rt; told);
    }
}

// A node that restarts on its immutable blocks has them as its chain, goes on from there, and tells them to followers.
#[test]
fn restarts_on_immutable_blocks(rt: HostRuntime) {
    let blocks = boxed(&rt, chain_of(&rt, 10));
    let mut core = core_on(&rt, SMALL_NETWORK);
    for made in blocks.iter() {
        answers(&rt, &mut core, &made.text, kept(0, 1));
    }
    same(&rt, "immutable", core.immutable(), 8);
    assert!(rt; core.block(0).is_none() && core.block(11).is_none());
    let texts = immutable_texts(&rt, &core);
    let mut again = opened_on(&rt, &texts);
    same(&rt, "height", again.height(), 8);
    same(&rt, "immutable again", again.immutable(), 8);
    for made in blocks.iter() {
        if made.number > 8 {
            answers(&rt, &mut again, &made.text, kept(0, 1));
        }
    }
    assert!(rt; again.tip() == core.tip());
    tells_from_the_first_on(&rt, &mut again, &texts);
}

// What a core was opened on is never rolled back, though the chain is shorter than k.
#[test]
fn no_fork_behind_an_opened_chain(rt: HostRuntime) {
    let a1 = make(&rt, None, 1);
    let a2 = after(&rt, &a1, 2);
    let b1 = make(&rt, None, 4);
    let b2 = after(&rt, &b1, 5);
    let b3 = after(&rt, &b2, 6);
    let b4 = after(&rt, &b3, 7);
    let mut texts = boxed(&rt, Vec::new(rt.alloc()));
    put(&rt, &mut texts, &a1);
    let mut core = opened_on(&rt, &texts);
    assert!(rt;
        core.tip()
            == (Point {
                number: 1,
                hash: a1.hash
            })
    );
    let too_old = ArriveReply::Refused(Refusal::TooOld);
    answers(&rt, &mut core, &b1.text, too_old);
    answers(&rt, &mut core, &a1.text, too_old);
    answers(&rt, &mut core, &a2.text, kept(0, 1));
    answers(&rt, &mut core, &b2.text, kept(0, 0));
    answers(&rt, &mut core, &b3.text, kept(0, 0));
    answers(&rt, &mut core, &b4.text, kept(0, 0));
    assert!(rt;
        core.tip()
            == (Point {
                number: 2,
                hash: a2.hash
            })
    );
}

// The first block that is none, or can't come next, is told by its number.
#[test]
fn first_invalid_block(rt: HostRuntime) {
    let a1 = make(&rt, None, 3);
    let same_slot = after(&rt, &a1, 3);
    let mut texts = boxed(&rt, Vec::new(rt.alloc()));
    same(&rt, "on nothing", opened_on(&rt, &texts).height(), 0);
    put(&rt, &mut texts, &same_slot);
    is_refused(&rt, &texts, 1);
    texts.clear();
    put(&rt, &mut texts, &a1);
    put(&rt, &mut texts, &same_slot);
    is_refused(&rt, &texts, 2);
    texts.truncate(1);
    texts
        .push(vec![in rt.alloc(); 0u8; 3].expect(&rt, MEMORY))
        .expect(&rt, MEMORY);
    put(&rt, &mut texts, &a1);
    is_refused(&rt, &texts, 2);
}
