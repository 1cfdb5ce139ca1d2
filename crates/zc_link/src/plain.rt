// The link of objects that writes code as it is.

ghost use Rattle.std.specs.Prelude.{◌≡◌, ◌≤◌, None, IfOk, IfErr};
ghost use Rattle.block_cut.specs.Faults.{first_fault};
ghost use Rattle.psabi_sym.specs.LinkFault.{IsRefusal};
ghost use Rattle.psabi_sym.specs.Inputs.{parsed};
ghost use Rattle.zc_link.specs.ImageParts.{plain_flags};
ghost use Rattle.zc_link.specs.Links.{IsPlainLink};

use crate::image::image_parts;
use crate::linked::Linked;
use block_cut::cut::Cut;
use elf32_read::header::RVC;
use elf32_write::write_image::write_image;
use pick_check::certificate::Certificate;
use psabi_sym::link_fault::LinkFault;
use psabi_sym::objects::Objects;
use std::alloc::Global;

// The e_flags of an image that holds the objects' code as it is (RISC-V ELF psABI, "File Header").
fn plain_flags(objects: &Objects) -> u32
    ensures value { result ≡ plain_flags (parsed objects.now) }
    ensures most { result ≤ 1 }
{
    for i in 0..objects.object_count() {
        if objects.compressed(i as u16) {
            return RVC;
        }
    }
    0
}

/// The link of the objects, which writes their code as it is, or why they aren't linked. It takes time
/// near-linear in the size of the objects.
pub fn link_plain(alloc: Global, objects: Objects) -> Result<Linked, LinkFault>
    ensures faultless { IfOk result (λ _. first_fault objects ≡ None) }
    ensures link { IfOk result (λ linked. IsPlainLink objects linked) }
    ensures err { IfErr result (λ fault. IsRefusal (first_fault objects) fault) }
{
    let cut = Cut::new(alloc, objects)?;
    let image_counts = cut.counts();
    let parts = image_parts(alloc, &cut, plain_flags(cut.objects()))?;
    // The file is made in the memory that the items had.
    drop(cut);
    let elf = write_image(alloc, &parts)?;
    let certificate = Certificate {
        slots: Vec::new(alloc),
        prices: [0, 0, 0],
        net: 0,
    };
    Ok(Linked {
        elf,
        savings: Vec::new(alloc),
        certificate,
        plain: image_counts,
        zc: image_counts,
    })
}
