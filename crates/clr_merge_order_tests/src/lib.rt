//! Tests of orders of merges in whole offices, by public calls: what is said of made-up cases, with little memory too, and of offices
//! that dice make, beside the merges of their members in all orders.
#![tactic(auto)]

#[cfg(test)]
mod all_orders;
#[cfg(test)]
mod asks;
#[cfg(test)]
mod cases;
#[cfg(test)]
mod dice_offices;
#[cfg(test)]
mod lists;
#[cfg(test)]
mod merges;
