// The link of objects that makes their code smaller.

ghost use Rattle.std.specs.Prelude.{◌≡◌, ◌≤◌, [], All, None, IfOk, IfErr, length};
ghost use Rattle.block_cut.specs.Faults.{first_fault};
ghost use Rattle.jumptable_pick.specs.Picked.{picked};
ghost use Rattle.jumptable_pick.specs.Slots as slots;
ghost use Rattle.pick_check.specs.Best.{NoneSavesMore};
ghost use Rattle.pick_check.specs.Certified.{IsAccepted};
ghost use Rattle.psabi_sym.specs.Inputs.{parsed};
ghost use Rattle.psabi_sym.specs.LinkFault.{IsRefusal};
ghost use Rattle.shrink_layout.specs.Savings.{HasFewSites, table_savings};
ghost use Rattle.zc_link.specs.Invariants.Counted.{IsCountedImage};
ghost use Rattle.zc_link.specs.LaidOut.{text_end};
ghost use Rattle.zc_link.specs.Links.{IsImageOf, IsZcLink};
ghost use Rattle.zc_link.specs.Standing.{IsReady};
ghost use Rattle.zc_link.specs.TextLayout.{zc_layout};

use crate::image::image_parts;
use crate::linked::Linked;
use block_cut::cut::Cut;
use elf32_read::header::RVC;
use elf32_write::write_image::write_image;
use frame_match::planned::plan;
use jumptable_pick::picker::pick;
use jumptable_pick::slots::slot_places;
use pick_check::certificate::Certificate;
use pick_check::saving::Saving;
use psabi_sym::link_fault::LinkFault;
use psabi_sym::objects::Objects;
use shrink_layout::settled::{Settled, settle, settle_with};
use std::alloc::{AllocError, Global};
use zc_base::counts::Counts;

// What a table could save, and the certificate of the one that is picked.
#[derive(Drop)]
struct Table {
    savings: Vec<Saving>,
    certificate: Certificate,
}

// The file of an image, and the counts of the plain layout and of the image's.
#[derive(Drop)]
struct Counted {
    elf: Vec<u8>,
    plain_counts: Counts,
    image_counts: Counts,
}

/// The link of the objects, or why they aren't linked. Pushes, pops and moves are written as one instruction
/// (`frame_match::planned::plan` finds them), jumps and calls go through the table that saves most if one saves
/// anything, and all else is written in the form that it has in the first round of sizes that fits. If there is no
/// ALIGN, no code aligned above 4 bytes and no fixed section, that is the shortest for these groups and this table.
/// Fixed sections stay as they are, but for padding. Beside the rounds it takes time near-linear in the size of the
/// objects.
pub fn link_zc(alloc: Global, objects: Objects) -> Result<Linked, LinkFault>
    ensures faultless { IfOk result (λ _. first_fault objects ≡ None) }
    ensures link { IfOk result (λ linked. IsZcLink objects linked) }
    ensures few { IfOk result (λ linked. length linked.savings ≤ 0x1_0000) }
    ensures err { IfErr result (λ fault. IsRefusal (first_fault objects) fault) }
{
    let first = tableless(alloc, objects)?;
    let linked = small_link(alloc, first)?;
    Ok(linked)
}

// The layout of the objects without a table.
fn tableless(alloc: Global, objects: Objects) -> Result<Settled, LinkFault>
    ensures same { IfOk result (λ first. first.inputs ≡ objects) }
    ensures slots { IfOk result (λ first. first.slots ≡ []) }
    ensures faultless { IfOk result (λ _. first_fault objects ≡ None) }
    ensures err { IfErr result (λ fault. IsRefusal (first_fault objects) fault) }
{
    let cut = Cut::new(alloc, objects)?;
    let planned = plan(alloc, cut)?;
    let first = settle(alloc, planned)?;
    Ok(first)
}

// The link of the objects with the table that is picked, by their layout without one.
fn small_link(alloc: Global, first: Settled) -> Result<Linked, AllocError>
    requires faultless { first_fault first.inputs ≡ None }
    requires tableless { first.slots ≡ [] }
    ensures link { IfOk result (λ linked. IsZcLink first.inputs linked) }
    ensures few { IfOk result (λ linked. length linked.savings ≤ 0x1_0000) }
{
    let table = pick_table(alloc, &first)?;
    let image = counted_image(alloc, first, &table.savings, &table.certificate)?;
    Ok(joined(image, table))
}

// What a link gives, of an image and its table.
fn joined(image: Counted, table: Table) -> Linked
    ensures elf { result.elf ≡ image.elf.items }
    ensures savings { result.savings ≡ table.savings.items }
    ensures certificate { result.certificate ≡ table.certificate }
    ensures plain { result.plain ≡ image.plain_counts }
    ensures zc { result.zc ≡ image.image_counts }
{
    Linked {
        elf: image.elf,
        savings: table.savings,
        certificate: table.certificate,
        plain: image.plain_counts,
        zc: image.image_counts,
    }
}

// What a table could save: nothing without Zcmt.
fn savings_on(alloc: Global, first: &Settled) -> Result<Vec<Saving>, AllocError>
    requires { first.now.slots ≡ [] }
    ensures value { IfOk result (λ savings. savings.items ≡ table_savings (parsed first.now.inputs)) }
    ensures few { IfOk result (λ savings. length savings.items ≤ 0x1_0000) }
    ensures sites { IfOk result (λ savings. All HasFewSites savings.items) }
{
    let has_zcmt = first.planned().cut().objects().map().extensions.zcmt;
    if has_zcmt {
        first.savings(alloc)
    } else {
        Ok(Vec::new(alloc))
    }
}

// What a table could save, and the certificate of the one that is picked.
fn pick_table(alloc: Global, first: &Settled) -> Result<Table, AllocError>
    requires { first.now.slots ≡ [] }
    ensures savings { IfOk result (λ table. table.savings.items ≡ table_savings (parsed first.now.inputs)) }
    ensures few { IfOk result (λ table. length table.savings.items ≤ 0x1_0000) }
    ensures is_picked { IfOk result (λ table. table.certificate ≡ picked table.savings.items) }
    ensures accepted { IfOk result (λ table. IsAccepted table.savings.items table.certificate) }
    ensures best { IfOk result (λ table. NoneSavesMore table.savings.items table.certificate.net) }
{
    let savings = savings_on(alloc, first)?;
    let certificate = pick(alloc, &savings)?;
    Ok(Table {
        savings,
        certificate,
    })
}

// The image of the layout after the table of a certificate, and its counts.
fn counted_image(
    alloc: Global,
    first: Settled,
    savings: &[Saving],
    certificate: &Certificate,
) -> Result<Counted, AllocError>
    requires faultless { first_fault first.inputs ≡ None }
    requires tableless { first.slots ≡ [] }
    requires savings { savings.now ≡ table_savings (parsed first.inputs) }
    requires accepted { IsAccepted savings.now certificate.now }
    ensures { IfOk result (IsCountedImage first.inputs (slots.slot_places savings.now certificate.now.slots)) }
{
    let settled = with_table(alloc, first, savings, certificate)?;
    let plain_counts = settled.planned().cut().counts();
    let image_counts = settled.counts();
    let elf = image_file(alloc, settled)?;
    Ok(Counted {
        elf,
        plain_counts,
        image_counts,
    })
}

// The layout after the table of a certificate; if that has no slots, it is the layout without a table.
fn with_table(
    alloc: Global,
    first: Settled,
    savings: &[Saving],
    certificate: &Certificate,
) -> Result<Settled, AllocError>
    requires faultless { first_fault first.inputs ≡ None }
    requires tableless { first.slots ≡ [] }
    requires savings { savings.now ≡ table_savings (parsed first.inputs) }
    requires accepted { IsAccepted savings.now certificate.now }
    ensures same { IfOk result (λ settled. settled.inputs ≡ first.inputs) }
    ensures slots { IfOk result (λ settled. settled.slots ≡ slots.slot_places savings.now certificate.now.slots) }
{
    if certificate.slots.is_empty() {
        return Ok(first);
    }
    let slots = slot_places(alloc, savings, certificate)?;
    settle_with(alloc, first, &slots)
}

// The file of the image of a layout. It is made in the memory that the layout had.
fn image_file(alloc: Global, settled: Settled) -> Result<Vec<u8>, AllocError>
    ensures ready { IfOk result (λ _. IsReady settled.inputs) }
    ensures image { IfOk result (λ elf. IsImageOf (zc_layout settled.inputs settled.slots) 1
        (text_end (zc_layout settled.inputs settled.slots)) elf.items) }
{
    let parts = image_parts(alloc, &settled, RVC)?;
    drop(settled);
    write_image(alloc, &parts)
}
