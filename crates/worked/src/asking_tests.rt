//! What a core is asked about blocks and transactions.

use super::fixture::{
    MEMORY, Made, SMALL_NETWORK, after, answers, boxed, chain_of, core_on, kept, same,
};
use super::payments::{bytes_of, hash_of, names_of, payment_of};
use chain_core::{Core, Place, TxPlace, Why};
use ident::{BlockHash, TxId};
use std::process::Abort;
use utxo_rules::Reason;
use witness_pool::TestScheme;

/// The block of this hash is there.
fn stands(rt: &impl Abort, core: &Core<TestScheme>, hash: BlockHash, want: Place) {
    let place = core.place(hash);
    assert!(rt; place == want, "{place:?} in place of {want:?}");
}

/// This is why it isn't selected.
fn told(rt: &impl Abort, core: &Core<TestScheme>, hash: BlockHash, want: Why) {
    let why = core.why(hash).expect(rt, MEMORY);
    assert!(rt; why == want, "{why:?} in place of {want:?}");
}

/// The core keeps the block with this hash, and its text is this.
fn has_text(rt: &impl Abort, core: &Core<TestScheme>, made: &Made) {
    let block = core.block_by_hash(made.hash).expect(rt, "a block");
    assert!(rt; block.bytes() == made.text.as_slice());
}

/// A block that names this one and has number 8, which doesn't fit.
fn misfit_after(rt: &(impl Abort + AllocGlobal), parent: &Made) -> Made {
    let text = parent.text.clone().expect(rt, MEMORY);
    let other = Made {
        text,
        number: 7,
        hash: parent.hash,
    };
    after(rt, &other, 30)
}

/// A chain of four blocks, of which two are never rolled back, a fork behind the second, a missing block of the fork
/// and one that waits for it, one that doesn't fit, and one behind the first, which comes too late.
#[derive(Drop)]
struct Around {
    chain: Vec<Made>,
    fork: Made,
    missing: Made,
    waiting: Made,
    misfit: Made,
    late: Made,
}

/// The block of the chain at this index.
fn on_chain<'a>(rt: &impl Abort, blocks: &'a [Made], index: usize) -> &'a Made {
    blocks.get(index).expect(rt, "a block")
}

/// These blocks.
fn blocks_around(rt: &(impl Abort + AllocGlobal)) -> Box<Around> {
    let chain = chain_of(rt, 4);
    let fork = after(rt, on_chain(rt, &chain, 1), 10);
    let missing = after(rt, &fork, 11);
    let waiting = after(rt, &missing, 12);
    let misfit = misfit_after(rt, on_chain(rt, &chain, 2));
    let late = after(rt, on_chain(rt, &chain, 0), 20);
    let around = Around {
        chain,
        fork,
        missing,
        waiting,
        misfit,
        late,
    };
    boxed(rt, around)
}

/// A core to which they came, except for the missing one and the one that comes too late.
fn core_of(rt: &(impl Abort + AllocGlobal), around: &Around) -> Box<Core<TestScheme>> {
    let mut core = core_on(rt, SMALL_NETWORK);
    for made in around.chain.iter() {
        answers(rt, &mut core, &made.text, kept(0, 1));
    }
    for made in [&around.fork, &around.waiting, &around.misfit] {
        answers(rt, &mut core, &made.text, kept(0, 0));
    }
    core
}

#[test]
fn places_of_blocks(rt: HostRuntime) {
    let around = blocks_around(&rt);
    let core = core_of(&rt, &around);
    let first = on_chain(&rt, &around.chain, 0);
    let third = on_chain(&rt, &around.chain, 2);
    stands(&rt, &core, first.hash, Place::Chain(1));
    stands(&rt, &core, third.hash, Place::Chain(3));
    stands(&rt, &core, around.fork.hash, Place::Beside(3));
    stands(&rt, &core, around.misfit.hash, Place::Beside(8));
    stands(&rt, &core, around.missing.hash, Place::Unknown);
    stands(&rt, &core, around.late.hash, Place::Unknown);
    has_text(&rt, &core, first);
    has_text(&rt, &core, third);
    has_text(&rt, &core, &around.fork);
    assert!(rt; core.block_by_hash(around.missing.hash).is_none());
}

#[test]
fn why_blocks_are_not_selected(rt: HostRuntime) {
    let around = blocks_around(&rt);
    let core = core_of(&rt, &around);
    let missing = around.missing.hash;
    let misfit = around.misfit.hash;
    for index in [0, 2] {
        let selected = on_chain(&rt, &around.chain, index);
        told(&rt, &core, selected.hash, Why::Selected);
    }
    told(&rt, &core, around.fork.hash, Why::NotLonger);
    told(&rt, &core, around.waiting.hash, Why::Waits(missing));
    told(&rt, &core, misfit, Why::Misfit(misfit));
    told(&rt, &core, missing, Why::Unknown);
}

/// The blocks that no way leads to are these, in this order.
fn unconnected(rt: &impl Abort, core: &Core<TestScheme>, want: &[&Made]) {
    let mut found = core.unconnected();
    for made in want {
        let block = found.next().expect(rt, "a block that no way leads to");
        assert!(rt; block.hash() == made.hash);
    }
    assert!(rt; found.next().is_none());
}

// One that doesn't fit and one that waits, the furthest first. When the missing one came the fork is selected, and of
// the old chain the fourth block is left behind a third that may never come back.
#[test]
fn blocks_that_no_way_leads_to(rt: HostRuntime) {
    let around = blocks_around(&rt);
    let mut core = core_of(&rt, &around);
    let left = on_chain(&rt, &around.chain, 3);
    unconnected(&rt, &core, &[&around.misfit, &around.waiting]);
    answers(&rt, &mut core, &around.missing.text, kept(2, 3));
    unconnected(&rt, &core, &[&around.misfit, left]);
    assert!(rt; core.discard(around.misfit.hash).is_ok());
    unconnected(&rt, &core, &[left]);
    assert!(rt; core.discard(left.hash).is_ok());
    unconnected(&rt, &core, &[]);
}

// A block that is found invalid is among them, and so is one behind it, until a discard forgets what was found.
#[test]
fn blocks_behind_an_invalid_one(rt: HostRuntime) {
    let names = names_of(
        &rt,
        "block A1 genesis 1\nblock B1 genesis 2 Unbalanced\nblock B2 B1 3",
    );
    let mut core = core_on(&rt, SMALL_NETWORK);
    for (name, change) in [("A1", kept(0, 1)), ("B1", kept(0, 0)), ("B2", kept(0, 0))] {
        answers(&rt, &mut core, bytes_of(&rt, &names, name), change);
    }
    let mut numbers = core.unconnected();
    for want in [2, 1] {
        let block = numbers.next().expect(&rt, "a block that no way leads to");
        same(&rt, "the number", block.number(), want);
    }
    assert!(rt; numbers.next().is_none());
    let last = hash_of(&rt, &names, "B2");
    assert!(rt; core.discard(last).is_ok());
    assert!(rt; core.unconnected().next().is_none());
}

#[test]
fn a_core_is_shown_by_its_numbers(rt: HostRuntime) {
    let around = blocks_around(&rt);
    let core = core_of(&rt, &around);
    let shown = format!(in rt.alloc(); "{core:?}").expect(&rt, MEMORY);
    assert!(rt;
        shown.as_str() == "Core { height: 4, immutable: 2, mempool: 0, .. }",
        "{shown}"
    );
}

// The blocks of a chain of four from a number on.
#[test]
fn blocks_from_a_number_on(rt: HostRuntime) {
    let blocks = boxed(&rt, chain_of(&rt, 4));
    let mut core = core_on(&rt, SMALL_NETWORK);
    for made in blocks.iter() {
        answers(&rt, &mut core, &made.text, kept(0, 1));
    }
    for (from, first, count) in [(0, 1, 4), (1, 1, 4), (3, 3, 2), (4, 4, 1), (5, 0, 0)] {
        let mut left = core.blocks(from);
        let number = match left.next() {
            Some(block) => block.number(),
            None => 0,
        };
        same(&rt, "the first", number, first);
        same(
            &rt,
            "the others",
            left.len() as u64 + u64::from(count > 0),
            count,
        );
    }
}

/// The transaction stands there.
fn found(rt: &impl Abort, core: &Core<TestScheme>, id: TxId, want: TxPlace) {
    let place = core.transaction(id);
    assert!(rt; place == want, "{place:?} in place of {want:?}");
}

/// The reason for which these bytes would be refused, and what it is about.
fn detail_is(rt: &impl Abort, core: &Core<TestScheme>, bytes: &[u8], want: Reason) {
    match core.explain_submission(bytes).expect(rt, MEMORY) {
        Some(detail) => assert!(rt; detail.reason() == want),
        None => panic!(rt; "no detail"),
    }
}

// A payment is unknown, waits, and stands in a block. What would be refused is explained, and nothing else is.
#[test]
fn places_of_transactions(rt: HostRuntime) {
    let names = names_of(&rt, "block A1 genesis 1 Good");
    let payment = payment_of(&rt, &names, "Good");
    let id = payment.tx().id();
    let text = payment.tx().encode().expect(&rt, MEMORY);
    let mut core = core_on(&rt, SMALL_NETWORK);
    found(&rt, &core, id, TxPlace::Unknown);
    assert!(rt; core.explain_submission(&text).expect(&rt, MEMORY).is_none());
    assert!(rt;
        core.explain_submission(b"no transaction")
            .expect(&rt, MEMORY)
            .is_none()
    );
    core.submit(&text).expect(&rt, MEMORY);
    found(&rt, &core, id, TxPlace::Waits(0));
    assert!(rt; core.explain_submission(&text).expect(&rt, MEMORY).is_none());
    answers(&rt, &mut core, bytes_of(&rt, &names, "A1"), kept(0, 1));
    found(
        &rt,
        &core,
        id,
        TxPlace::Block {
            number: 1,
            index: 0,
        },
    );
    detail_is(&rt, &core, &text, Reason::MissingInput);
}
