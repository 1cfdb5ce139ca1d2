// A large valid input.

ghost use Rattle.std.specs.Prelude.{◌≡◌, ◌*◌, ◌^◌, ◌<◌, ◌≤◌, All, length, None, Err, IfOk};
ghost use Rattle.std.specs.List.{flat_map};
ghost use Rattle.zc_base.specs.MemMap.{standard_map};
ghost use Rattle.zc_base.specs.Options.{options_in};
ghost use Rattle.elf32_write.specs.ObjectFile.{object_bytes};
ghost use Rattle.elf32_write.specs.Writable.{IsWritable};
ghost use Rattle.psabi_sym.specs.Inputs.{inputs_in};
ghost use Rattle.psabi_sym.specs.Objects.{contents_of};
ghost use Rattle.block_cut.specs.Faults.{first_fault};
ghost use Rattle.load_maker.specs.Objects.{group, group_object, made_objects, start_object};
ghost use Rattle.load_maker.specs.Statements.{IsInRange, code_size};
ghost use Rattle.load_maker.specs.declared.fault.MakeFault.TheVariants.{TooMany};
ghost use Rattle.load_maker.specs.declared.make_objects.TheConstants.{FUNCTION_LIMIT};

use crate::body::Body;
use crate::fault::MakeFault;
use crate::functions::functions as make_functions;
use crate::objects::{function_object, start_object};
use elf32_write::write_object::write_object;
use std::alloc::{AllocError, Global};

/// The most functions that are made: they take 200 objects, beside the one where the program starts.
pub const FUNCTION_LIMIT: u32 = 1600;

// The number of functions in an object, if as many are left.
const IN_ONE_OBJECT: u32 = 8;

// The functions of an object.
#[tactic(auto, using(crate::proofs::FileLaws::group_slice))]
fn group_of(bodies: &[Body], k: u32) -> &[Body]
    requires small { k < 2 ^ 28 }
    requires within { 8 * k ≤ length bodies.now }
    ensures { result.now ≡ group bodies.now k }
{
    let first = (IN_ONE_OBJECT * k) as usize;
    let end = bodies.len().min(first + IN_ONE_OBJECT as usize);
    &bodies[first..end]
}

// The file of the first object.
fn start_file(alloc: Global, number: u64, functions: u32) -> Result<Vec<u8>, AllocError>
    requires { functions ≤ FUNCTION_LIMIT }
    ensures { IfOk result (λ file. file.items ≡ object_bytes (start_object number functions)) }
{
    let parts = start_object(alloc, number, functions)?;
    let file = write_object(alloc, &parts)?;
    Ok(file)
}

// The file of an object of functions.
fn file_of(alloc: Global, bodies: &[Body], k: u32) -> Result<Vec<u8>, AllocError>
    requires small { k < 2 ^ 20 }
    requires within { 8 * k ≤ length bodies.now }
    requires size { code_size (flat_map (λ body. body) (group bodies.now k)) < 2 ^ 31 }
    requires range { All IsInRange (flat_map (λ body. body) (group bodies.now k)) }
    requires writable { IsWritable (group_object bodies.now k) }
    ensures { IfOk result (λ file. file.items ≡ object_bytes (group_object bodies.now k)) }
{
    let parts = function_object(alloc, IN_ONE_OBJECT * k, group_of(bodies, k))?;
    write_object(alloc, &parts)
}

// The files of the objects.
fn files(alloc: Global, number: u64, functions: u32) -> Result<Vec<Vec<u8>>, AllocError>
    requires { functions ≤ FUNCTION_LIMIT }
    ensures { IfOk result (λ files. contents_of files.items ≡ made_objects number functions) }
{
    let bodies = make_functions(alloc, number, functions)?;
    let mut files = Vec::new(alloc);
    files.push(start_file(alloc, number, functions)?)?;
    for k in 0..functions.div_ceil(IN_ONE_OBJECT) {
        files.push(file_of(alloc, &bodies, k)?)?;
    }
    Ok(files)
}

/// The objects of `functions` functions, from a number: one where the program starts, which calls them all in order,
/// and then one for each eight of them.
pub fn make_objects(alloc: Global, number: u64, functions: u32) -> Result<Vec<Vec<u8>>, MakeFault>
    ensures objects { IfOk result (λ files. contents_of files.items ≡ made_objects number functions) }
    ensures faultless { IfOk result (λ files.
        first_fault (inputs_in (options_in standard_map) (contents_of files.items)) ≡ None) }
    ensures too_many { 1600 < functions → result ≡ Err TooMany }
    ensures only { result ≡ Err TooMany → 1600 < functions }
{
    if functions > FUNCTION_LIMIT {
        return Err(MakeFault::TooMany);
    }
    Ok(files(alloc, number, functions)?)
}
