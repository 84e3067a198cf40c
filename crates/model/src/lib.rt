//! What the node means: the definitions that every other crate's promises are made of, and their laws.
//!
//! The definitions stand in `specs/`, over plain data alone (numbers, lists, options, records). A function
//! here has no body: its contract is a law of the definitions, which is proved for every value.
#![tactic(auto)]

mod asking;
mod eras;
mod examples;
mod forging;
mod histories;
mod journals;
mod ledgers;
mod logs;
mod mempool;
mod opening;
mod rule_examples;
mod rules;
mod texts;

pub use asking::{evaluated_as_answered, never_too_far_back};
pub use eras::{assets_counted_once, before_the_second_era, in_the_second_era, one_era};
pub use examples::{
    lengths_of_later_blocks, no_texts, scripts_of_times, scripts_that_count, texts_of_first_blocks,
    texts_of_maps, texts_of_nested_items, texts_of_numbers, texts_of_scripts,
};
pub use forging::forged_blocks;
pub use histories::{
    chain_theorem, change_counts, followers_catch_up, immutable_part_grows, kept_blocks,
    live_hashes_differ, new_nodes, one_reply, one_selection, one_state, selected_chain,
    told_chains,
};
pub use journals::heights_never_fall;
pub use ledgers::{one_answer_to_a_block, states_of_chains, supply_conserved};
pub use logs::{crashed_logs, one_way_to_open};
pub use mempool::{mempool_passes, picked_transactions};
pub use opening::{opening_outputs, opening_supply};
pub use rule_examples::{asset_sum_past_64_bits, mint_and_burn, slots_of_intervals, spend_and_fee};
pub use rules::{
    balanced_in_each_asset, first_reason, pairs_after, same_reason, spent_pairs, test_signatures,
    value_conserved,
};
pub use texts::{
    one_text_of_blocks, one_text_of_items, one_text_of_mints, one_text_of_scripts,
    one_text_of_transactions, one_text_of_values,
};
