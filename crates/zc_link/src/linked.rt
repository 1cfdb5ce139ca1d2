// What a link gives.

use pick_check::certificate::Certificate;
use pick_check::saving::Saving;
use std::marker::Model;
use zc_base::counts::Counts;

/// What a link gives: the file of the image, what a table of jumps could save, the certificate of the table that it
/// has, and what the plain layout and the image count. A plain link's image has the plain layout, so both are the same.
#[derive(Drop)]
pub struct Linked {
    pub elf: Vec<u8>,
    pub savings: Vec<Saving>,
    pub certificate: Certificate,
    pub plain: Counts,
    pub zc: Counts,
}

impl Model for Linked {
    ghost use Rattle.zc_link.specs.Links.{Link};

    ghost Value = { Link };

    ghost view = { λ linked. record {
      elf = linked.elf.items;
      savings = linked.savings.items;
      certificate = linked.certificate;
      plain = linked.plain;
      zc = linked.zc;
    } };
}
