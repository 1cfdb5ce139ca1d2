// Links and cuts objects that have no fault. Only running out of memory can stop that.

ghost use Rattle.std.specs.Prelude.{◌≡◌, IfErr, IfOk, None};
ghost use Rattle.block_cut.specs.Faults.{first_fault};
ghost use Rattle.load_runner.specs.Runs.{standard_inputs};
ghost use Rattle.psabi_sym.specs.LinkFault.{IsRefusal};
ghost use Rattle.psabi_sym.specs.Objects.{contents_of};
ghost use Rattle.zc_link.specs.Links.{IsPlainLink, IsZcLink};

use crate::load_end::LoadEnd;
use block_cut::cut::Cut;
use psabi_sym::link_fault::LinkFault;
use psabi_sym::objects::Objects;
use std::alloc::Global;
use zc_base::link_options::LinkOptions;
use zc_base::mem_map::MemMap;
use zc_link::linked::Linked;
use zc_link::plain::link_plain;
use zc_link::zc::link_zc;

/// The objects in these files, cut into items.
pub fn cut_files(alloc: Global, files: &[Vec<u8>]) -> Result<Cut, LoadEnd>
    requires { first_fault (standard_inputs (contents_of files.now)) ≡ None }
    ensures ok { IfOk result (λ cut. cut ≡ standard_inputs (contents_of files.now)) }
    ensures err { IfErr result (λ end. end ≡ LoadEnd.OutOfMemory) }
{
    match Cut::new(alloc, faultless_objects(alloc, files)?) {
        Ok(cut) => Ok(cut),
        Err(fault) => Err(want_of_memory(fault)),
    }
}

/// The link of the objects in these files that writes their code as it is.
pub fn plain_link(alloc: Global, files: &[Vec<u8>]) -> Result<Linked, LoadEnd>
    requires { first_fault (standard_inputs (contents_of files.now)) ≡ None }
    ensures ok { IfOk result (λ linked. IsPlainLink (standard_inputs (contents_of files.now)) linked) }
    ensures err { IfErr result (λ end. end ≡ LoadEnd.OutOfMemory) }
{
    match link_plain(alloc, faultless_objects(alloc, files)?) {
        Ok(linked) => Ok(linked),
        Err(fault) => Err(want_of_memory(fault)),
    }
}

/// The link of the objects in these files that makes their code smaller.
pub fn zc_link(alloc: Global, files: &[Vec<u8>]) -> Result<Linked, LoadEnd>
    requires { first_fault (standard_inputs (contents_of files.now)) ≡ None }
    ensures ok { IfOk result (λ linked. IsZcLink (standard_inputs (contents_of files.now)) linked) }
    ensures err { IfErr result (λ end. end ≡ LoadEnd.OutOfMemory) }
{
    match link_zc(alloc, faultless_objects(alloc, files)?) {
        Ok(linked) => Ok(linked),
        Err(fault) => Err(want_of_memory(fault)),
    }
}

// The objects in these files.
fn faultless_objects(alloc: Global, files: &[Vec<u8>]) -> Result<Objects, LoadEnd>
    requires { first_fault (standard_inputs (contents_of files.now)) ≡ None }
    ensures ok { IfOk result (λ objects. objects ≡ standard_inputs (contents_of files.now)) }
    ensures err { IfErr result (λ end. end ≡ LoadEnd.OutOfMemory) }
{
    let options = LinkOptions::of_map(alloc, MemMap::standard());
    match Objects::gather(alloc, files, &options) {
        Ok(objects) => Ok(objects),
        Err(fault) => Err(want_of_memory(fault)),
    }
}

// The end of a load when objects without a fault are refused: memory ran out.
fn want_of_memory(fault: LinkFault) -> LoadEnd
    requires { IsRefusal None fault }
    ensures { result ≡ LoadEnd.OutOfMemory }
{
    match fault {
        LinkFault::OutOfMemory => LoadEnd::OutOfMemory,
        LinkFault::Object { .. } => unreachable!(),
    }
}
