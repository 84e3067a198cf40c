//! Texts that are changed at random.

use crate::random::Random;

/// Puts bytes behind a text. Where memory runs out it is cut short.
pub fn put(out: &mut Vec<u8>, bytes: &[u8]) {
    let _ = out.extend_from_slice(bytes);
}

/// The bytes of a text from a place on, up to another.
fn part(text: &[u8], from: usize, to: usize) -> &[u8] {
    text.get(from..to).unwrap_or(&[])
}

/// Puts the text with another byte at a place.
fn put_with(out: &mut Vec<u8>, text: &[u8], place: usize, byte: u8) {
    put(out, text);
    if let Some(changed) = out.get_mut(place) {
        *changed = byte;
    }
}

/// The bits of a byte.
const BITS: [u8; 8] = [1, 2, 4, 8, 16, 32, 64, 128];

/// Puts the text with a bit flipped.
fn put_flipped(out: &mut Vec<u8>, text: &[u8], random: &mut Random) {
    let place = random.below(text.len());
    let byte = text.get(place).copied().unwrap_or(0);
    let bit = BITS.get(random.below(BITS.len())).copied().unwrap_or(1);
    put_with(out, text, place, byte ^ bit);
}

/// Puts what a text has before one place, and then what it has from another on: a part is left out where the second
/// stands behind the first, and doubled where it stands before it.
fn put_skipping(out: &mut Vec<u8>, text: &[u8], random: &mut Random) {
    let first = random.below(text.len().saturating_add(1));
    let second = random.below(text.len().saturating_add(1));
    put(out, part(text, 0, first));
    put(out, part(text, second, text.len()));
}

/// Puts the text with a byte put in.
fn put_longer(out: &mut Vec<u8>, text: &[u8], random: &mut Random) {
    let place = random.below(text.len().saturating_add(1));
    put(out, part(text, 0, place));
    put(out, &[random.byte()]);
    put(out, part(text, place, text.len()));
}

/// Puts the beginning of a text, and then the end of another.
fn put_joined(out: &mut Vec<u8>, text: &[u8], other: &[u8], random: &mut Random) {
    let first = random.below(text.len().saturating_add(1));
    let second = random.below(other.len().saturating_add(1));
    put(out, part(text, 0, first));
    put(out, part(other, second, other.len()));
}

/// Makes `out` a text that is changed in one way: a bit is flipped, a byte is another one, a part is left out or
/// doubled, a byte is put in or stands behind it, or it goes on as another text does.
pub fn change(out: &mut Vec<u8>, text: &[u8], other: &[u8], random: &mut Random) {
    out.clear();
    match random.below(6) {
        0 => put_flipped(out, text, random),
        1 => put_with(out, text, random.below(text.len()), random.byte()),
        2 => put_skipping(out, text, random),
        3 => put_longer(out, text, random),
        4 => {
            put(out, text);
            put(out, &[random.byte()]);
        }
        _ => put_joined(out, text, other, random),
    }
}
