//! The blocks of a core on a log, and a core on the blocks of a log.

use super::fake_file::FakeFile;
use super::fixture::{MEMORY, again, genesis_of};
use block::{Header, empty_body_hash, read, write_empty};
use chain_core::Core;
use file_disk::FileDisk;
use flushing::flush;
use ident::BlockHash;
use immlog::{Disk, Log};
use std::process::Abort;
use witness_pool::TestScheme;

/// The text of the block of this number and slot without transactions that comes after the one of this hash.
fn text_of(rt: &(impl Abort + AllocGlobal), number: u64, previous: Option<BlockHash>) -> Vec<u8> {
    let header = Header {
        number,
        slot: number,
        previous,
        body_hash: empty_body_hash(),
    };
    write_empty(rt.alloc(), &header).expect(rt, "a block")
}

/// A core to which `blocks` blocks came, one after the other.
fn core_after(rt: &(impl Abort + AllocGlobal), blocks: u64) -> Box<Core<TestScheme>> {
    let core = Core::new(rt.alloc(), genesis_of(rt)).expect(rt, MEMORY);
    let mut core = Box::new(rt.alloc(), core).expect(rt, MEMORY);
    let mut previous = None;
    for number in 1..blocks.saturating_add(1) {
        let text = text_of(rt, number, previous);
        let block = Box::new(rt.alloc(), read(rt.alloc(), &text).expect(rt, "a block"));
        previous = Some(block.expect(rt, MEMORY).hash());
        let reply = core.arrive(&text);
        assert!(rt; reply.is_ok());
    }
    core
}

/// A log of the immutable blocks of a core to which `blocks` blocks came.
fn log_after(rt: &(impl Abort + AllocGlobal), blocks: u64) -> Box<Log<FileDisk<FakeFile>>> {
    let core = core_after(rt, blocks);
    let disk = FileDisk::open(rt.alloc(), FakeFile::new(rt.alloc(), u64::MAX)).expect(rt, MEMORY);
    let Ok(mut log) = Log::create(rt.alloc(), disk) else {
        rt.abort();
    };
    let flushed = flush(&mut log, &core);
    assert!(rt; flushed == Ok(()));
    Box::new(rt.alloc(), log).expect(rt, MEMORY)
}

/// How many bytes the file of the log has.
fn size_of(rt: &(impl Abort + AllocGlobal), log: Log<FileDisk<FakeFile>>) -> usize {
    let file = log.into_disk().into_file();
    let mut disk = FileDisk::open(rt.alloc(), file).expect(rt, MEMORY);
    let mut room = [0u8; 512];
    disk.read(0, &mut room).expect(rt, "a read")
}

// With one immutable block the log has 78 bytes, with two of them 188. A core that is opened on them has just these.
#[test]
fn log_after_a_run(rt: HostRuntime) {
    for (arrived, height, size) in [(1, 0, 1), (2, 0, 1), (3, 1, 78), (4, 2, 188)] {
        let log = Box::into_inner(log_after(&rt, arrived));
        let (log, restart) = again(&rt, log);
        let core = restart.core().expect(&rt, "a chain");
        let core = Box::new(rt.alloc(), core).expect(&rt, MEMORY);
        assert!(rt; core.height() == height);
        assert!(rt; size_of(&rt, log) == size);
    }
}
