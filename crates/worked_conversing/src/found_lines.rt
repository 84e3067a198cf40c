//! What questions find, as lines: each reply was written by hand.

use conversing::{
    Cause, Found, Outcome, Reason, Standing, ToldAsset, ToldOutput, read_request, reply_line,
};
use std::alloc::{AllocError, Global};
use std::test::Fail;

/// The reply that tells this to a request of the id 1.
fn told(alloc: Global, found: Found<'_>) -> Result<Vec<u8>, AllocError> {
    let line = b"{\"jsonrpc\":\"2.0\",\"method\":\"queryTip\",\"id\":1}";
    match read_request(alloc, line.as_slice()) {
        Ok(request) => reply_line(alloc, &request.id, &Outcome::Answered(found)),
        Err(_) => Err(AllocError),
    }
}

/// The reply of the id 1 with this result, in which `*` stands for the 64 digits of 32 bytes 07.
fn line_of(alloc: Global, told: &[u8]) -> Result<Vec<u8>, AllocError> {
    let mut line = Vec::new(alloc);
    line.extend_from_slice(b"{\"jsonrpc\":\"2.0\",\"result\":")?;
    for byte in told {
        if *byte == b'*' {
            line.extend_from_slice(
                b"0707070707070707070707070707070707070707070707070707070707070707",
            )?;
        } else {
            line.extend_from_slice(&[*byte])?;
        }
    }
    line.extend_from_slice(b",\"id\":1}\n")?;
    Ok(line)
}

/// A reason as the node tells it.
const REASON: Reason<'static> = Reason {
    number: 4,
    name: "FeeTooSmall",
    sentence: "the fee is 289, where the least is 290",
};

#[test]
fn outputs_are_told(rt: HostRuntime) -> Result<(), Fail> {
    let alloc = rt.alloc();
    let assets = [
        ToldAsset {
            policy: [7; 32],
            name: b"abc".as_slice(),
            quantity: 5,
        },
        ToldAsset {
            policy: [7; 32],
            name: b"".as_slice(),
            quantity: 9_007_199_254_740_992,
        },
    ];
    let outputs = [
        ToldOutput {
            transaction: [7; 32],
            index: 0,
            address: [97, 1].as_slice(),
            coin: 910,
            assets: assets.as_slice(),
        },
        ToldOutput {
            transaction: [7; 32],
            index: 65_535,
            address: b"".as_slice(),
            coin: 0,
            assets: [].as_slice(),
        },
    ];
    let mut wanted = Vec::new(alloc);
    wanted.extend_from_slice(
        b"[{\"transaction\":\"*\",\"index\":0,\"address\":\"6101\",\"coin\":910,",
    )?;
    wanted.extend_from_slice(
        b"\"assets\":[{\"policy\":\"*\",\"name\":\"616263\",\"quantity\":5},",
    )?;
    wanted.extend_from_slice(
        b"{\"policy\":\"*\",\"name\":\"\",\"quantity\":\"9007199254740992\"}]},",
    )?;
    wanted.extend_from_slice(
        b"{\"transaction\":\"*\",\"index\":65535,\"address\":\"\",\"coin\":0,\"assets\":[]}]",
    )?;
    let line = line_of(alloc, &wanted)?;
    assert_eq!(rt;
        told(alloc, Found::Outputs(outputs.as_slice()))?.as_slice(),
        line.as_slice()
    );
    Ok(())
}

#[test]
fn transactions_and_blocks_are_told(rt: HostRuntime) -> Result<(), Fail> {
    let alloc = rt.alloc();
    let ids = [[7; 32], [7; 32]];
    let hash = [7; 32];
    let invalid = Cause::InvalidTransaction {
        hash,
        index: 1,
        reason: REASON,
    };
    let cases: [(Found<'_>, &[u8]); 9] = [
        (Found::Acceptable, b"{\"accepted\":true}".as_slice()),
        (
            Found::Unacceptable(REASON),
            b"{\"accepted\":false,\"number\":4,\"name\":\"FeeTooSmall\",\
\"sentence\":\"the fee is 289, where the least is 290\"}"
                .as_slice(),
        ),
        (Found::NoBlock, b"null".as_slice()),
        (
            Found::Transaction(Standing::Waits(0)),
            b"{\"waits\":0}".as_slice(),
        ),
        (
            Found::Transaction(Standing::Block {
                number: 3,
                index: 2,
            }),
            b"{\"block\":3,\"index\":2}".as_slice(),
        ),
        (Found::Mempool(ids.as_slice()), b"[\"*\",\"*\"]".as_slice()),
        (Found::Mempool([].as_slice()), b"[]".as_slice()),
        (
            Found::Why(Cause::Waits(hash)),
            b"{\"why\":\"waits\",\"hash\":\"*\"}".as_slice(),
        ),
        (
            Found::Why(invalid),
            b"{\"why\":\"invalid\",\"hash\":\"*\",\"index\":1,\"number\":4,\"name\":\"FeeTooSmall\",\
\"sentence\":\"the fee is 289, where the least is 290\"}"
                .as_slice(),
        ),
    ];
    for (found, wanted) in &cases {
        let line = line_of(alloc, wanted)?;
        assert_eq!(rt; told(alloc, *found)?.as_slice(), line.as_slice());
    }
    Ok(())
}
