//! Tests of calls that no words of the program reach, of the real devices, and of a container at types of its own, each
//! through the public calls of its crate. They stand together, since a crate that has tests is proved once more for them.
#![tactic(auto)]

#[cfg(test)]
mod checked_trees;
#[cfg(test)]
mod devices;
#[cfg(test)]
mod edit_refusals;
#[cfg(test)]
mod fix_runs;
#[cfg(test)]
mod found_limits;
#[cfg(test)]
mod marked_walks;
#[cfg(test)]
mod number_files;
#[cfg(test)]
mod plain_scans;
#[cfg(test)]
mod printed_rules;
#[cfg(test)]
mod printed_schemas;
#[cfg(test)]
mod rule_refusals;
#[cfg(test)]
mod uncalled;
