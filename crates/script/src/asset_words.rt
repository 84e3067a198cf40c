//! Assets in a line, one after the other.

ghost use Rattle.std.specs.Prelude.{◌≡◌, IsSome, option_map, drop};
ghost use Rattle.script.specs.Line.{asset_of_parts, parse_asset_name, parse_assets, said_assets};
ghost use Rattle.script.specs.Text.{parse_number};
ghost use Rattle.script.specs.WordsView.{words_left};
ghost use Rattle.script.specs.AssetView.{named_asset_of, first_asset, first_of};

use crate::name::Name;
use crate::number::parse_number;
use crate::part::AssetName;
use crate::words::Words;

/// A quantity of an asset, whose policy is the script of a name.
#[derive(Clone, Copy)]
pub struct NamedAsset<'a> {
    pub script: Name<'a>,
    pub name: AssetName<'a>,
    pub quantity: u64,
}

impl<'a> NamedAsset<'a> {
    /// The asset that three words say.
    fn of_words(script: &'a [u8], name: &'a [u8], quantity: &[u8]) -> Option<NamedAsset<'a>>
        ensures { option_map named_asset_of result ≡
            asset_of_parts script.entry.now (parse_asset_name name.entry.now) (parse_number quantity.now) }
    {
        let name = AssetName::of_word(name)?;
        let quantity = parse_number(quantity)?;
        let script = Name::of_word(script)?;
        Some(NamedAsset {
            script,
            name,
            quantity,
        })
    }

    /// The asset that the next three words say. They are read, whether or not they say one.
    fn next_of(words: &mut Words<'a>) -> Option<NamedAsset<'a>>
        ensures asset { option_map named_asset_of result ≡ first_asset (words_left words.old) }
        ensures rest { words_left words.new ≡ drop 3 (words_left words.old) }
    {
        let script = words.next_word();
        let name = words.next_word();
        let quantity = words.next_word();
        NamedAsset::of_words(script?, name?, quantity?)
    }
}

/// The words of assets, three for each: a script's name, the asset's name, and how much of it.
#[derive(Clone, Copy)]
pub struct AssetWords<'a> {
    pub words: Words<'a>,
    pub ghost says: { IsSome (parse_assets (words_left words)) },
}

impl<'a> AssetWords<'a> {
    /// The assets that words say, if each three of them say one. Takes time in proportion to the words, and no memory.
    pub fn of(words: Words<'a>) -> Option<AssetWords<'a>>
        ensures { option_map (λ a. said_assets (words_left a.words)) result ≡ parse_assets (words_left words.entry) }
    {
        let mut left = words;
        while !left.is_empty() {
            NamedAsset::next_of(&mut left)?;
        }
        Some(AssetWords { words })
    }

    /// The next asset, if there is one.
    pub fn next_asset(&mut self) -> Option<NamedAsset<'a>>
        ensures asset { option_map named_asset_of result ≡ first_of (said_assets (words_left self.old.words)) }
        ensures rest { said_assets (words_left self.new.words) ≡ drop 1 (said_assets (words_left self.old.words)) }
    {
        NamedAsset::next_of(&mut self.words)
    }
}
