//! Values, and what is minted.

ghost use Rattle.std.specs.Prelude.{◌≡◌, ◌++◌, ℤ, pos, [], IfOk, OnOk, flat_map, map, string_bytes};
ghost use Rattle.value.specs.View.{policy_of, token_of};
ghost use Rattle.showing.specs.Values.{asset_line, lines_of_assets, lines_of_value};

use crate::lines::put_number;
use ident::{Hex, ScriptHash};
use std::alloc::{AllocError, Global};
use value::{Policy, Token, Value};

/// A quantity of an asset, of an output or minted.
pub trait Amount: Copy {
    /// The quantity as a whole number.
    ghost whole: { Self → ℤ };

    /// The quantity, in a width that has room for each.
    fn to_whole(self) -> i128
        ensures { result ≡ whole self };
}

/// Of an output.
impl Amount for u64 {
    ghost whole = { pos };

    fn to_whole(self) -> i128 {
        i128::from(self)
    }
}

/// Of what is minted. What is burned is below 0.
impl Amount for i64 {
    ghost whole = { λ quantity. quantity };

    fn to_whole(self) -> i128 {
        i128::from(self)
    }
}

/// Appends the line of one asset of a policy.
fn put_asset<Q: Amount>(
    out: &mut String,
    margin: &str,
    word: &str,
    policy: &ScriptHash,
    token: &Token<Q>,
) -> Result<(), AllocError>
    ensures { OnOk result (string_bytes out.new ≡ string_bytes out.old
        ++ asset_line Q.whole margin.now word.now policy.now.bytes (token_of token.now)) }
{
    let quantity = token.quantity.to_whole();
    if token.name.is_empty() {
        return write!(out, "{margin}{word} {policy} - {quantity}\n");
    }
    let name = Hex(&token.name);
    write!(out, "{margin}{word} {policy} {name} {quantity}\n")
}

/// Appends the line of each asset of a policy.
fn put_tokens<Q: Amount>(
    out: &mut String,
    margin: &str,
    word: &str,
    policy: &ScriptHash,
    tokens: &[Token<Q>],
) -> Result<(), AllocError>
    ensures { OnOk result (string_bytes out.new ≡ string_bytes out.old
        ++ flat_map (asset_line Q.whole margin.now word.now policy.now.bytes) (map token_of tokens.now)) }
{
    for token in tokens {
        put_asset(out, margin, word, policy, token)?;
    }
    Ok(())
}

/// Appends the line of each asset of these policies.
pub fn put_assets<Q: Amount>(
    out: &mut String,
    margin: &str,
    word: &str,
    policies: &[Policy<Q>],
) -> Result<(), AllocError>
    ensures { OnOk result (string_bytes out.new ≡ string_bytes out.old
        ++ lines_of_assets Q.whole margin.now word.now (map policy_of policies.now)) }
{
    for policy in policies {
        put_tokens(out, margin, word, &policy.id, &policy.tokens)?;
    }
    Ok(())
}

/// Appends the lines of a value.
pub fn put_value(out: &mut String, margin: &str, value: &Value) -> Result<(), AllocError>
    ensures { OnOk result (string_bytes out.new ≡ string_bytes out.old ++ lines_of_value margin.now value.now) }
{
    put_number(out, margin, "coin", value.coin())?;
    put_assets(out, margin, "asset", value.assets())
}

/// The lines of a value: `coin N`, in lovelace, and for each other asset, in the value's order, `asset POLICY NAME N`,
/// with `-` for the empty name. Err where memory runs out. Takes time and memory in proportion to the lines.
pub fn show_value(alloc: Global, value: &Value) -> Result<String, AllocError>
    ensures { IfOk result (λ lines. string_bytes lines ≡ lines_of_value [] value.now) }
{
    let mut lines = String::new(alloc);
    put_value(&mut lines, "", value)?;
    Ok(lines)
}
