// Objects without the code that nothing reaches.

ghost use Rattle.std.specs.Prelude.{◌≡◌, None, IfErr, IfOk, length};
ghost use Rattle.zc_base.specs.MemMap.{IsMap};
ghost use Rattle.psabi_sym.specs.Indexed.{all_sections};
ghost use Rattle.psabi_sym.specs.Inputs.{inputs_in, parsed};
ghost use Rattle.psabi_sym.specs.Objects.{contents_of};
ghost use Rattle.block_cut.specs.Faults.{first_fault};
ghost use Rattle.section_gc.specs.Collected.{IsCollected, IsCollection, IsGcFault};
ghost use Rattle.section_gc.specs.Kept.{AreNeeded};
ghost use Rattle.section_gc.specs.Marked.{needed_by};

use crate::counts::code_counts;
use crate::files::files_of;
use crate::gc_fault::GcFault;
use crate::left::oversized_index;
use crate::needed::needed_sections;
use block_cut::cut::Cut;
use elf32_read::fault::Fault;
use object_passes::judge::{cut_files, judge};
use psabi_sym::objects::Objects;
use std::alloc::Global;
use std::marker::Model;
use zc_base::link_options::LinkOptions;

/// The files of objects without the code that nothing reaches, in the order of the given ones; how many of the given
/// sections of code are kept of how many, and how many bytes these have of how many.
#[derive(Drop)]
pub struct Cleaned {
    pub objects: Vec<Vec<u8>>,
    pub kept: u32,
    pub all: u32,
    pub bytes: u32,
    pub from: u32,
}

impl Model for Cleaned {
    ghost use Rattle.psabi_sym.specs.Objects.{contents_of};
    ghost use Rattle.section_gc.specs.Collected.{Collection};

    ghost Value = { Collection };

    ghost view = { λ cleaned. record {
      files = contents_of cleaned.objects.items;
      kept = cleaned.kept;
      all = cleaned.all;
      bytes = cleaned.bytes;
      from = cleaned.from;
    } };
}

// The files of the objects without the code that isn't marked, which isn't needed, or why they aren't to be had.
fn collected_files(
    alloc: Global,
    objects: &Objects,
    marks: &[bool],
    options: &LinkOptions,
) -> Result<Vec<Vec<u8>>, GcFault>
    requires options { objects.now ≡ inputs_in options.now objects.now.files }
    requires faultless { first_fault objects.now ≡ None }
    requires size { length marks.now ≡ length (all_sections (parsed objects.now).objects) }
    requires needed { AreNeeded (parsed objects.now) (needed_by objects.now marks.now) }
    ensures ok { IfOk result (λ files.
        IsCollected objects.now (needed_by objects.now marks.now) (contents_of files.items)) }
    ensures err { IfErr result (IsGcFault objects.now) }
{
    // The map of the objects, and so of the options, is one.
    objects.recall_invariant();
    if let Some(index) = oversized_index(alloc, objects, marks)? {
        return Err(GcFault::Broken {
            index,
            fault: Fault::TooLarge,
        });
    }
    let files = files_of(alloc, objects, marks)?;
    match judge(alloc, &files, options) {
        Ok(()) => Ok(files),
        Err(fault) => Err(GcFault::of_result(fault)),
    }
}

// The objects without the code that isn't marked, which isn't needed, or why they aren't to be had.
fn collected(
    alloc: Global,
    objects: &Objects,
    marks: &[bool],
    options: &LinkOptions,
) -> Result<Cleaned, GcFault>
    requires options { objects.now ≡ inputs_in options.now objects.now.files }
    requires faultless { first_fault objects.now ≡ None }
    requires size { length marks.now ≡ length (all_sections (parsed objects.now).objects) }
    requires needed { AreNeeded (parsed objects.now) (needed_by objects.now marks.now) }
    ensures ok { IfOk result (λ done. IsCollection objects.now done) }
    ensures err { IfErr result (IsGcFault objects.now) }
{
    let files = collected_files(alloc, objects, marks, options)?;
    let counts = code_counts(objects, marks);
    Ok(Cleaned {
        objects: files,
        kept: counts.kept,
        all: counts.all,
        bytes: counts.bytes,
        from: counts.from,
    })
}

// The objects that were cut without the code that nothing reaches, or why they aren't to be had.
fn collect(alloc: Global, cut: &Cut, options: &LinkOptions) -> Result<Cleaned, GcFault>
    requires { cut.now ≡ inputs_in options.now cut.now.files }
    ensures ok { IfOk result (λ done. IsCollection cut.now done) }
    ensures err { IfErr result (IsGcFault cut.now) }
{
    let marks = needed_sections(alloc, cut)?;
    collected(alloc, cut.objects(), &marks, options)
}

/// The objects in these files without the sections of code that nothing reaches, or why they aren't to be had. It takes
/// time near-linear in the files' bytes, sections, symbols and relocations.
pub fn gc(alloc: Global, bytes: &[Vec<u8>], options: &LinkOptions) -> Result<Cleaned, GcFault>
    requires { IsMap options.now.map }
    ensures ok { IfOk result (λ done. IsCollection (inputs_in options.now (contents_of bytes.now)) done) }
    ensures err { IfErr result (IsGcFault (inputs_in options.now (contents_of bytes.now))) }
{
    match cut_files(alloc, bytes, options) {
        Ok(cut) => collect(alloc, &cut, options),
        Err(fault) => Err(GcFault::of_given(fault)),
    }
}
