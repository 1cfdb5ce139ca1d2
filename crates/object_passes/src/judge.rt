// Files as a link takes them, and their first fault.

ghost use Rattle.std.specs.Prelude.{◌≡◌, None, IfErr, IfOk};
ghost use Rattle.zc_base.specs.MemMap.{IsMap};
ghost use Rattle.psabi_sym.specs.Inputs.{inputs_in};
ghost use Rattle.psabi_sym.specs.LinkFault.{IsRefusal};
ghost use Rattle.psabi_sym.specs.Objects.{contents_of};
ghost use Rattle.block_cut.specs.Faults.{first_fault};

use block_cut::cut::Cut;
use psabi_sym::link_fault::LinkFault;
use psabi_sym::objects::Objects;
use std::alloc::Global;
use zc_base::link_options::LinkOptions;

/// The objects in these files, cut into items, or their first fault.
pub fn cut_files(alloc: Global, files: &[Vec<u8>], options: &LinkOptions) -> Result<Cut, LinkFault>
    requires { IsMap options.now.map }
    ensures same { IfOk result (λ cut. cut ≡ inputs_in options.now (contents_of files.now)) }
    ensures faultless { IfOk result (λ _. first_fault (inputs_in options.now (contents_of files.now)) ≡ None) }
    ensures err { IfErr result (IsRefusal (first_fault (inputs_in options.now (contents_of files.now)))) }
{
    match Objects::gather(alloc, files, options) {
        Ok(objects) => Cut::new(alloc, objects),
        Err(fault) => Err(fault),
    }
}

/// The first fault of the objects in these files, if they have one.
pub fn judge(alloc: Global, files: &[Vec<u8>], options: &LinkOptions) -> Result<(), LinkFault>
    requires { IsMap options.now.map }
    ensures ok { IfOk result (λ _. first_fault (inputs_in options.now (contents_of files.now)) ≡ None) }
    ensures err { IfErr result (IsRefusal (first_fault (inputs_in options.now (contents_of files.now)))) }
{
    match cut_files(alloc, files, options) {
        Ok(_cut) => Ok(()),
        Err(fault) => Err(fault),
    }
}
