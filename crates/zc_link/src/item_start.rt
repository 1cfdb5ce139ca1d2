// Where what is written for an item begins.

use block_cut::place_number::PlaceNumber;
use zc_base::place::Place;

/// Where an item starts: its place and where that stands among all, the bytes of its section, how many of them it has,
/// whether it keeps them if it is an instruction of two bytes without relocation, and its address if it has one.
#[derive(Clone, Copy)]
pub struct ItemStart<'a> {
    pub at: Place,
    pub number: PlaceNumber,
    pub code: &'a [u8],
    pub own: u8,
    pub keeps: bool,
    pub address: u32,
}
