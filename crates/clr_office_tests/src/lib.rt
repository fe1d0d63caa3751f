//! Tests of whole offices: runs of the program over devices that fail, checks of two texts, and groups of members and which of them are
//! independent, in offices that dice make too, compared with what the definitions say, worked out plainly.
#![tactic(auto)]

#[cfg(test)]
mod devices;
#[cfg(test)]
mod dice_groups;
#[cfg(test)]
mod dice_offices;
#[cfg(test)]
mod faults;
#[cfg(test)]
mod groups;
#[cfg(test)]
mod merge_sets;
#[cfg(test)]
mod plain;
#[cfg(test)]
mod scene_texts;
#[cfg(test)]
mod separators;
#[cfg(test)]
mod two_texts;
