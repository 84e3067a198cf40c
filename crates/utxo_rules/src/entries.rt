//! The unspent outputs one after the other, all of them or those of one address.

ghost use Rattle.std.specs.Prelude.{◌≡◌};
ghost use Rattle.std.specs.Iterator.{YieldsFirstBy, item_count};
ghost use Rattle.utxo_rules.specs.Entries.{pair_of};

use crate::entry::{Place, Unspent};
use persistent_map::Iter;
use std::marker::Model;
use tx::{ADDRESS_SIZE, Input, Output};

/// The unspent outputs that are still to come, each with the input that would spend it, in the order of the inputs: by
/// the bytes of the transaction's identifier, then by the index. Takes no memory; each step takes time in proportion to
/// the logarithm of the number of all.
#[derive(Drop)]
pub struct Entries<'a> {
    pub(crate) rest: Iter<'a, Place, Unspent>,
}

impl<'a> Model for Entries<'a> {
    ghost use Rattle.std.specs.Prelude.{List};
    ghost use Rattle.std.specs.Coded.{coded_list, coded×};
    ghost use Rattle.model.specs.Transaction.{Input, Output};
    ghost use Rattle.model.specs.Codes.{coded_input, coded_output};

    ghost Value = { List (Input × Output) };

    ghost coded = { coded_list (coded× coded_input coded_output) };

    ghost view = { λ e. e.rest };
}

impl<'a> Iterator for Entries<'a> {
    type Item = (Input, &'a Output);

    ghost next_gives = { YieldsFirstBy pair_of (λ entries. entries) };

    ghost remaining = { item_count (λ entries. entries) };

    /// The next output with the input that would spend it, or None where no more is to come.
    fn next(&mut self) -> Option<(Input, &'a Output)> {
        let (place, unspent) = self.rest.next()?;
        Some((place.input(), unspent.output()))
    }
}

/// The unspent outputs of one address that are still to come, in the same order. They are looked for among all unspent
/// outputs, one after the other, with no memory.
#[derive(Drop)]
pub struct EntriesOf<'a> {
    pub(crate) entries: Entries<'a>,
    /// The bytes of the address.
    pub(crate) bytes: [u8; ADDRESS_SIZE],
}

impl<'a> Model for EntriesOf<'a> {
    ghost use Rattle.std.specs.Prelude.{List};
    ghost use Rattle.std.specs.Coded.{coded_list, coded×};
    ghost use Rattle.model.specs.Transaction.{Input, Output};
    ghost use Rattle.model.specs.Codes.{coded_input, coded_output};
    ghost use Rattle.utxo_rules.specs.Entries.{pairs_with};

    ghost Value = { List (Input × Output) };

    ghost coded = { coded_list (coded× coded_input coded_output) };

    ghost view = { λ e. pairs_with e.bytes e.entries };
}

impl<'a> Iterator for EntriesOf<'a> {
    type Item = (Input, &'a Output);

    ghost next_gives = { YieldsFirstBy pair_of (λ entries. entries) };

    ghost remaining = { item_count (λ entries. entries) };

    /// The next output of the address with the input that would spend it, or None where no more is to come.
    fn next(&mut self) -> Option<(Input, &'a Output)> {
        while let Some((input, output)) = self.entries.next() {
            if output.address.to_bytes() == self.bytes {
                return Some((input, output));
            }
        }
        None
    }
}
