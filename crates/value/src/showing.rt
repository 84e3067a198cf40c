//! Values as text for people.

ghost use Rattle.std.specs.Prelude.{Some, map, flat_map};
ghost use Rattle.value.specs.Texts.{token_text, policy_text, value_text};
ghost use Rattle.value.specs.View.{token_of, policy_of};

use crate::assets::{Policy, Token};
use crate::value::Value;
use ident::{Hex, ScriptHash};
use std::fmt;

/// A quantity of an asset, after a plus sign.
#[derive(Drop)]
struct TokenText<'a> {
    policy: &'a ScriptHash,
    token: &'a Token<u64>,
}

impl<'a> fmt::Display for TokenText<'a> {
    ghost output = { λ t. Some (token_text t.policy.now.bytes (token_of t.token.now)) };

    fn fmt<W: fmt::Write>(&self, f: &mut fmt::Formatter<W>) -> fmt::Result {
        let quantity = self.token.quantity;
        let policy = self.policy;
        if self.token.name.is_empty() {
            return write!(f, " + {quantity} {policy}");
        }
        let name = Hex(&self.token.name);
        write!(f, " + {quantity} {policy}.{name}")
    }
}

/// The quantity of each asset of a policy.
#[derive(Drop)]
struct PolicyText<'a> {
    policy: &'a Policy<u64>,
}

impl<'a> fmt::Display for PolicyText<'a> {
    ghost output = { λ p. Some (policy_text (policy_of p.policy.now)) };

    fn fmt<W: fmt::Write>(&self, f: &mut fmt::Formatter<W>) -> fmt::Result {
        let policy = &self.policy.id;
        for token in &self.policy.tokens {
            let text = TokenText { policy, token };
            write!(f, "{text}")?;
        }
        Ok(())
    }
}

/// The quantity of each asset of these policies.
#[derive(Drop)]
struct AssetsText<'a> {
    policies: &'a [Policy<u64>],
}

impl<'a> fmt::Display for AssetsText<'a> {
    ghost output = { λ a. Some (flat_map policy_text (map policy_of a.policies.now)) };

    fn fmt<W: fmt::Write>(&self, f: &mut fmt::Formatter<W>) -> fmt::Result {
        for policy in self.policies {
            let text = PolicyText { policy };
            write!(f, "{text}")?;
        }
        Ok(())
    }
}

impl fmt::Display for Value {
    ghost output = { λ value. Some (value_text value) };

    /// Writes the coin in lovelace, and the quantity of each asset, in the value's order:
    /// `1000 lovelace + 5 POLICY.NAME`, with policy and name in lower case hexadecimal, and without the dot where the
    /// name is empty.
    fn fmt<W: fmt::Write>(&self, f: &mut fmt::Formatter<W>) -> fmt::Result {
        let coin = self.coin();
        let assets = AssetsText {
            policies: self.assets(),
        };
        write!(f, "{coin} lovelace{assets}")
    }
}
