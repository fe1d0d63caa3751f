//! The spots of rows under rules: squares of the plane, or values in columns. Rows that stand in
//! one need share a spot, so that each can be found from the others.
//!
//! - `spots_of` [`list`, `wide`] gives the squares or values by which a row is found under a rule;
//!   `subject_spots` and `server_spots` give those of one role. Laws, among them
//!   `subjects_share_spots` and `servers_share_spots`: rows that stand in one need of a book's rule
//!   share a spot, or one of them is wide.
//! - `SpotMap` files parts of rows by the spots of their rows under one rule: `file` [`ok`, `err`]
//!   adds a part at the spots of its row, or as that of a wide one; `add_near` [`ok`, `err`] adds to a
//!   list the parts that may stand in a need with a row of some spots: those of its spots and of wide
//!   rows, or all where it is wide itself.
#![tactic(auto)]

mod boxes;
mod hashes;
mod laws;
mod limits;
mod order;
mod parts;
mod role_spots;
mod rows;
mod sorted_lists;
mod spot_maps;
mod spots;
mod squares;
mod values;

pub use laws::{
    servers_share_spots, spots_are_shared_both_ways, spots_stand_once, squares_of_a_box,
    subjects_share_spots,
};
pub use limits::limits_of_spots;
pub use role_spots::{server_spots, subject_spots};
pub use rows::spots_of;
pub use sorted_lists::put_in_order;
pub use spot_maps::{FiledPart, SpotMap};
pub use spots::{Spot, SpotList, Spots};
