//! Tests of the cut of code, its layout and the links. They have a crate of their own, since a crate with
//! tests is proved twice.
#![tactic(auto)]

#[cfg(test)]
mod answers;
#[cfg(test)]
mod changed_fields;
#[cfg(test)]
mod chip_rows;
#[cfg(test)]
mod chips;
#[cfg(test)]
mod compressed;
#[cfg(test)]
mod compressed_rows;
#[cfg(test)]
mod cut_rows;
#[cfg(test)]
mod cuts;
#[cfg(test)]
mod fault_rows;
#[cfg(test)]
mod faults;
#[cfg(test)]
mod fixed;
#[cfg(test)]
mod fixed_rows;
#[cfg(test)]
mod group_rows;
#[cfg(test)]
mod groups;
#[cfg(test)]
mod images;
#[cfg(test)]
mod links;
#[cfg(test)]
mod objects;
