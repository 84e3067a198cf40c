//! Documents of many outputs, and the numbers and names of the faults.

use super::fixture::MEMORY;
use super::networks::NUMBERS;
use genesis::{Genesis, GenesisFault};
use std::process::Abort;

/// The faults with their numbers and names.
const FAULTS: &[(GenesisFault, Option<u8>, &str)] = &[
    (GenesisFault::NotToml, Some(1), "NotToml"),
    (GenesisFault::BadShape, Some(2), "BadShape"),
    (GenesisFault::OutOfRange, Some(3), "OutOfRange"),
    (GenesisFault::BadAddress, Some(4), "BadAddress"),
    (GenesisFault::BadCoin, Some(5), "BadCoin"),
    (GenesisFault::BadOutputs, Some(6), "BadOutputs"),
    (GenesisFault::OutOfMemory, None, "OutOfMemory"),
];

#[test]
fn numbers_and_names(rt: HostRuntime) {
    for (fault, number, name) in FAULTS {
        assert!(rt; fault.number() == *number, "{name}");
        let text = fault.to_string(rt.alloc()).expect(&rt, MEMORY);
        assert!(rt; text.as_str() == *name, "{name}");
    }
}

/// A number of outputs that are alike, to the key of 32 bytes 01 in the first two rows and those of a coin of 0, and
/// the fault. Of too many outputs with another fault each that one is told.
const COUNTS: &[(u32, &str, Option<GenesisFault>)] = &[
    (
        10_000,
        "{ key = \"0101010101010101010101010101010101010101010101010101010101010101\", coin = 1 }",
        None,
    ),
    (
        10_001,
        "{ key = \"0101010101010101010101010101010101010101010101010101010101010101\", coin = 1 }",
        Some(GenesisFault::BadOutputs),
    ),
    (
        10_001,
        "{ key = \"0101010101010101010101010101010101010101010101010101010101010101\", coin = 0 }",
        Some(GenesisFault::BadCoin),
    ),
    (
        10_001,
        "{ key = \"01\", coin = 1 }",
        Some(GenesisFault::BadAddress),
    ),
    (10_001, "{ key = \"01\" }", Some(GenesisFault::BadShape)),
    (10_001, "{ key }", Some(GenesisFault::NotToml)),
];

/// The document of `count` outputs that are alike.
fn document_of(rt: &(impl Abort + AllocGlobal), count: u32, output: &str) -> String {
    let mut text = NUMBERS.to_string(rt.alloc()).expect(rt, MEMORY);
    text.push_str("output = [").expect(rt, MEMORY);
    for _ in 0..count {
        text.push_str(output).expect(rt, MEMORY);
        text.push_str(",\n").expect(rt, MEMORY);
    }
    text.push_str("]\n").expect(rt, MEMORY);
    text
}

#[test]
fn counts(rt: HostRuntime) {
    for (count, output, want) in COUNTS {
        let text = document_of(&rt, *count, *output);
        let told = Genesis::from_toml(rt.alloc(), text.as_str()).err();
        assert!(rt; told == *want, "{output}");
    }
}
