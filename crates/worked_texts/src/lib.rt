//! Worked texts of all that has one, and what is read of them, written, made of parts and refused: each is a test,
//! with what is to come out written by hand or computed by another program.
#![tactic(auto)]

#[cfg(test)]
mod addresses;
#[cfg(test)]
mod blocks;
#[cfg(test)]
mod described;
#[cfg(test)]
mod drafts;
#[cfg(test)]
mod fixture;
#[cfg(test)]
mod full_blocks;
#[cfg(test)]
mod identifiers;
#[cfg(test)]
mod item_fields;
#[cfg(test)]
mod item_shapes;
#[cfg(test)]
mod items;
#[cfg(test)]
mod misfits;
#[cfg(test)]
mod pools;
#[cfg(test)]
mod scripts;
#[cfg(test)]
mod seen_blocks;
#[cfg(test)]
mod shown;
#[cfg(test)]
mod sums;
#[cfg(test)]
mod transaction_making;
#[cfg(test)]
mod transactions;
#[cfg(test)]
mod values;
#[cfg(test)]
mod verdicts;
