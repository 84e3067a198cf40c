//! What the tests share: hexadecimal texts, and hashes that another SHA-256 computed.

use std::process::Abort;

/// The SHA-256 digest of 32 bytes 01.
pub const KEY_HASH: &str = "72cd6e8422c407fb6d098690f1130b7ded7ec2f7f5e1d30bd9d521f015363793";

/// The hash of the script that asks for all of none, which is the policy that it governs.
pub const POLICY: &str = "310e8ad6fd176849a5667f8309d828a7aa48dd2d56e308ebe790babd1c7daf88";

/// 32 bytes 00, 01, 02 and 09.
pub const ZEROS: &str = "0000000000000000000000000000000000000000000000000000000000000000";

pub const ONES: &str = "0101010101010101010101010101010101010101010101010101010101010101";

pub const TWOS: &str = "0202020202020202020202020202020202020202020202020202020202020202";

pub const NINES: &str = "0909090909090909090909090909090909090909090909090909090909090909";

/// The number of a hexadecimal digit.
fn digit(character: u8) -> Option<u8> {
    match character {
        b'0'..=b'9' => Some(character - b'0'),
        b'a'..=b'f' => Some(character - b'a' + 10),
        _ => None,
    }
}

// Each way out of a function drops all that it owns, which makes its proof longer. So a lack of memory and what can't
// be otherwise end a test on the spot.

/// What is said where memory runs out.
pub const MEMORY: &str = "memory";

/// The bytes of hexadecimal texts, one after the other; all that is no digit is skipped.
pub fn hex(rt: &(impl Abort + AllocGlobal), texts: &[&str]) -> Vec<u8> {
    let mut bytes = Vec::new(rt.alloc());
    let mut high = None;
    for text in texts {
        for character in text.as_bytes() {
            if let Some(low) = digit(*character) {
                high = match high {
                    None => Some(low << 4),
                    Some(high) => {
                        bytes.push(high | low).expect(rt, MEMORY);
                        None
                    }
                };
            }
        }
    }
    bytes
}

/// The value in a box, whose drop is a call.
pub fn boxed<T: Drop>(rt: &(impl Abort + AllocGlobal), value: T) -> Box<T> {
    Box::new(rt.alloc(), value).expect(rt, MEMORY)
}

/// What this is said of is so. Each assertion makes the proof of its test longer, and each message much longer, so most
/// tests say what they see to this one.
pub fn check(rt: &impl Abort, case: &str, is_so: bool) {
    assert!(rt; is_so, "{case}");
}

/// Hexadecimal texts, one after the other, spell these bytes.
pub fn is_spelled(rt: &(impl Abort + AllocGlobal), texts: &[&str], bytes: &[u8]) {
    check(rt, "a text", hex(rt, texts).as_slice() == bytes);
}

/// Pieces of text, one after the other, are this text.
pub fn is_text(rt: &(impl Abort + AllocGlobal), pieces: &[&str], text: &str) {
    let mut whole = String::new(rt.alloc());
    for piece in pieces {
        whole.push_str(*piece).expect(rt, MEMORY);
    }
    check(rt, text, whole.as_str() == text);
}
