// What an image is made of.

use std::marker::Model;
use zc_base::place::Place;

/// What an image is made of.
///
/// `entry`, `text_at` and `data_at` are addresses: where the program starts, and where its text and its data lie.
/// `zero` is the number of zero bytes after `data_bytes` in memory, and `flags` goes into e_flags. `places` lists
/// places in the objects' code, in ascending order, each with its address.
#[derive(Drop)]
pub struct ImageParts {
    pub entry: u32,
    pub flags: u32,
    pub text_at: u32,
    pub text: Vec<u8>,
    pub data_at: u32,
    pub data_bytes: Vec<u8>,
    pub zero: u32,
    pub places: Vec<(Place, u32)>,
}

impl Model for ImageParts {
    ghost use Rattle.elf32_write.specs.Parts.{Parts};

    ghost Value = { Parts };

    ghost view = { λ parts. record {
      entry = parts.entry;
      flags = parts.flags;
      text_at = parts.text_at;
      text = parts.text.items;
      data_at = parts.data_at;
      data_bytes = parts.data_bytes.items;
      zero = parts.zero;
      places = parts.places.items;
    } };
}
