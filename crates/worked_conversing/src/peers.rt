//! What peers send, in lines and behind lengths.

use peering::{Framing, MAX_BLOCK, PeerFault, Sent, next_sent};
use std::alloc::Global;
use std::io;
use std::io::{BufRead, ErrorKind, Read};
use std::test::Fail;

/// The bytes of a block that is sent next.
fn next_block<R: BufRead>(
    alloc: Global,
    reader: &mut R,
    framing: Framing,
) -> Result<Vec<u8>, Fail> {
    match next_sent(alloc, reader, framing)? {
        Some(Sent::Block(bytes)) => Ok(bytes),
        _ => Err("no block".into()),
    }
}

/// A stream that has these bytes and then can't be read.
#[derive(Drop)]
struct Broken<'a> {
    bytes: &'a [u8],
}

impl<'a> Read for Broken<'a> {
    fn read(&mut self, buf: &mut [u8]) -> io::Result<usize> {
        if self.bytes.is_empty() {
            return Err(ErrorKind::Other.into());
        }
        self.bytes.read(buf)
    }
}

impl<'a> BufRead for Broken<'a> {
    fn fill_buf(&mut self) -> io::Result<&[u8]> {
        if self.bytes.is_empty() {
            return Err(ErrorKind::Other.into());
        }
        Ok(self.bytes)
    }

    fn consume(&mut self, amount: usize) {
        self.bytes.consume(amount);
    }
}

#[test]
fn lines_are_read(rt: HostRuntime) -> Result<(), Fail> {
    let alloc = rt.alloc();
    let mut reader = b"00fF\n0a0B\r\n\n82".as_slice();
    let first = next_block(alloc, &mut reader, Framing::Lines)?;
    assert_eq!(rt; first.as_slice(), [0x00, 0xff].as_slice());
    let second = next_block(alloc, &mut reader, Framing::Lines)?;
    assert_eq!(rt; second.as_slice(), [0x0a, 0x0b].as_slice());
    let empty = next_block(alloc, &mut reader, Framing::Lines)?;
    assert_eq!(rt; empty.len(), 0);
    let last = next_block(alloc, &mut reader, Framing::Lines)?;
    assert_eq!(rt; last.as_slice(), [0x82].as_slice());
    assert!(rt; next_sent(alloc, &mut reader, Framing::Lines)?.is_none());
    Ok(())
}

#[test]
fn malformed_lines_are_told(rt: HostRuntime) -> Result<(), Fail> {
    let alloc = rt.alloc();
    // An odd number of digits; a space; no digit; a carriage return that isn't before a line feed, twice.
    let mut reader = b"012\n01 2\n0x12\n01\r02\n12\n12\r".as_slice();
    for _ in 0..4u8 {
        let sent = next_sent(alloc, &mut reader, Framing::Lines)?;
        assert!(rt; matches!(sent, Some(Sent::Malformed)));
    }
    let block = next_block(alloc, &mut reader, Framing::Lines)?;
    assert_eq!(rt; block.as_slice(), [0x12].as_slice());
    let sent = next_sent(alloc, &mut reader, Framing::Lines)?;
    assert!(rt; matches!(sent, Some(Sent::Malformed)));
    assert!(rt; next_sent(alloc, &mut reader, Framing::Lines)?.is_none());
    Ok(())
}

#[test]
fn large_lines_are_passed_over(rt: HostRuntime) -> Result<(), Fail> {
    let alloc = rt.alloc();
    let mut text = Vec::new(alloc);
    text.resize(2 * MAX_BLOCK, b'7')?;
    text.extend_from_slice(b"\r\n")?;
    // One digit more, two, and very many.
    text.resize(text.len() + 2 * MAX_BLOCK + 1, b'7')?;
    text.extend_from_slice(b"\n")?;
    text.resize(text.len() + 2 * MAX_BLOCK + 2, b'7')?;
    text.extend_from_slice(b"\n")?;
    text.resize(text.len() + 4 * MAX_BLOCK, b'7')?;
    text.extend_from_slice(b"\n12\n")?;
    let mut reader = text.as_slice();
    let whole = next_block(alloc, &mut reader, Framing::Lines)?;
    assert_eq!(rt; whole.len(), MAX_BLOCK);
    for _ in 0..3u8 {
        let sent = next_sent(alloc, &mut reader, Framing::Lines)?;
        assert!(rt; matches!(sent, Some(Sent::TooLarge)));
    }
    let next = next_block(alloc, &mut reader, Framing::Lines)?;
    assert_eq!(rt; next.as_slice(), [0x12].as_slice());
    assert!(rt; next_sent(alloc, &mut reader, Framing::Lines)?.is_none());
    Ok(())
}

#[test]
fn framed_blocks_are_read(rt: HostRuntime) -> Result<(), Fail> {
    let alloc = rt.alloc();
    let mut text = Vec::from_slice(alloc, &[0, 0, 0, 2, 0x0a, 0x0b, 0, 0, 0, 0, 0, 0, 1, 0])?;
    text.resize(text.len() + 256, 5)?;
    let mut reader = text.as_slice();
    let first = next_block(alloc, &mut reader, Framing::Binary)?;
    assert_eq!(rt; first.as_slice(), [0x0a, 0x0b].as_slice());
    assert_eq!(rt; next_block(alloc, &mut reader, Framing::Binary)?.len(), 0);
    assert_eq!(rt; next_block(alloc, &mut reader, Framing::Binary)?.len(), 256);
    assert!(rt; next_sent(alloc, &mut reader, Framing::Binary)?.is_none());
    Ok(())
}

#[test]
fn large_framed_blocks_are_passed_over(rt: HostRuntime) -> Result<(), Fail> {
    let alloc = rt.alloc();
    let mut text = Vec::from_slice(alloc, &[0, 0x10, 0, 0])?;
    text.resize(text.len() + MAX_BLOCK, 5)?;
    text.extend_from_slice(&[0, 0x10, 0, 1])?;
    text.resize(text.len() + MAX_BLOCK + 1, 5)?;
    text.extend_from_slice(&[0, 0, 0, 1, 9])?;
    let mut reader = text.as_slice();
    assert_eq!(rt;
        next_block(alloc, &mut reader, Framing::Binary)?.len(),
        MAX_BLOCK
    );
    let sent = next_sent(alloc, &mut reader, Framing::Binary)?;
    assert!(rt; matches!(sent, Some(Sent::TooLarge)));
    let next = next_block(alloc, &mut reader, Framing::Binary)?;
    assert_eq!(rt; next.as_slice(), [9].as_slice());
    assert!(rt; next_sent(alloc, &mut reader, Framing::Binary)?.is_none());
    Ok(())
}

#[test]
fn streams_that_are_cut_off_are_told(rt: HostRuntime) -> Result<(), Fail> {
    let alloc = rt.alloc();
    let texts = [
        [0, 0, 0].as_slice(),
        [0, 0, 0, 2, 7].as_slice(),
        [0xff, 0xff, 0xff, 0xff, 7].as_slice(),
    ];
    for text in texts {
        let mut reader = text;
        let sent = next_sent(alloc, &mut reader, Framing::Binary)?;
        assert!(rt; matches!(sent, Some(Sent::Malformed)));
        assert!(rt; next_sent(alloc, &mut reader, Framing::Binary)?.is_none());
    }
    Ok(())
}

#[test]
fn failed_reads_are_told(rt: HostRuntime) -> Result<(), Fail> {
    let alloc = rt.alloc();
    let mut line = Broken { bytes: b"0102" };
    let sent = next_sent(alloc, &mut line, Framing::Lines);
    assert!(rt; matches!(sent, Err(PeerFault::ReadFailed)));
    for bytes in [
        b"".as_slice(),
        [0, 0].as_slice(),
        [0, 0, 0, 2, 1].as_slice(),
    ] {
        let mut stream = Broken { bytes };
        let sent = next_sent(alloc, &mut stream, Framing::Binary);
        assert!(rt; matches!(sent, Err(PeerFault::ReadFailed)));
    }
    Ok(())
}
