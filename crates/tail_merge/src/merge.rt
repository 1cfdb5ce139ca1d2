// Objects with equal tails shared.

ghost use Rattle.std.specs.Prelude.{◌≡◌, ◌+◌, IfErr, IfOk};
ghost use Rattle.zc_base.specs.MemMap.{IsMap};
ghost use Rattle.psabi_sym.specs.Inputs.{inputs_in, parsed};
ghost use Rattle.psabi_sym.specs.Objects.{contents_of};
ghost use Rattle.moved_runs.specs.Passes.{with_files};
ghost use Rattle.tail_merge.specs.Merged.{byte_count};
ghost use Rattle.tail_merge.specs.Merging.{AreMerged, IsMergeFault, IsMerging, bytes_of_code};
ghost use Rattle.tail_merge.specs.MovedTails.{AreAllMoved, tables_of};

use crate::all_tails::all_removed_tails;
use crate::counts::removed_counts;
use crate::files::files_of;
use crate::left::oversized_index;
use crate::merge_fault::MergeFault;
use crate::moved_tail::MovedTail;
use crate::tail_tables::all_tables;
use block_cut::cut::Cut;
use elf32_read::fault::Fault;
use object_passes::judge::{cut_files, judge};
use std::alloc::Global;
use std::marker::Model;
use zc_base::link_options::LinkOptions;

/// The files of objects with equal tails shared, in the order of the given ones; how many tails were removed, and how
/// many bytes of code the results have fewer.
#[derive(Drop)]
pub struct Merged {
    pub objects: Vec<Vec<u8>>,
    pub tails: u32,
    pub bytes: u32,
}

impl Model for Merged {
    ghost use Rattle.psabi_sym.specs.Objects.{contents_of};
    ghost use Rattle.tail_merge.specs.Merging.{Merging};

    ghost Value = { Merging };

    ghost view = { λ merged. record {
      files = contents_of merged.objects.items;
      tails = merged.tails;
      bytes = merged.bytes;
    } };
}

// The files of the objects with equal tails shared, by the sections' tables, or why they aren't to be had.
fn merged_files(
    alloc: Global,
    cut: &Cut,
    tables: &[Vec<MovedTail>],
    options: &LinkOptions,
) -> Result<Vec<Vec<u8>>, MergeFault>
    requires options { cut.now ≡ inputs_in options.now cut.now.files }
    requires tables { AreAllMoved (parsed cut.now) (tables_of tables.now) }
    ensures ok { IfOk result (λ files. AreMerged cut.now (contents_of files.items)) }
    ensures fewer { IfOk result (λ files.
        bytes_of_code (parsed (with_files cut.now (contents_of files.items))).objects + byte_count (parsed cut.now)
        ≡ bytes_of_code (parsed cut.now).objects) }
    ensures err { IfErr result (IsMergeFault cut.now) }
{
    // Objects without a fault have few data, so that no place of code is among them.
    cut.objects().recall_invariant();
    if let Some(index) = oversized_index(alloc, cut, tables)? {
        return Err(MergeFault::Broken {
            index,
            fault: Fault::TooLarge,
        });
    }
    let files = files_of(alloc, cut, tables)?;
    match judge(alloc, &files, options) {
        Ok(()) => Ok(files),
        Err(fault) => Err(MergeFault::of_result(fault)),
    }
}

// The objects that were cut with equal tails shared, or why they aren't to be had.
fn merge_cut(alloc: Global, cut: &Cut, options: &LinkOptions) -> Result<Merged, MergeFault>
    requires { cut.now ≡ inputs_in options.now cut.now.files }
    ensures ok { IfOk result (λ done. IsMerging cut.now done) }
    ensures err { IfErr result (IsMergeFault cut.now) }
{
    let tails = all_removed_tails(alloc, cut)?;
    let tables = all_tables(alloc, cut, &tails)?;
    let objects = merged_files(alloc, cut, &tables, options)?;
    let counts = removed_counts(cut, &tables);
    Ok(Merged {
        objects,
        tails: counts.tails,
        bytes: counts.bytes,
    })
}

/// The objects in these files with equal ends of functions shared, or why they aren't to be had. It takes time
/// near-linear in the files' bytes, items, symbols and relocations.
pub fn merge(alloc: Global, bytes: &[Vec<u8>], options: &LinkOptions) -> Result<Merged, MergeFault>
    requires { IsMap options.now.map }
    ensures ok { IfOk result (λ done. IsMerging (inputs_in options.now (contents_of bytes.now)) done) }
    ensures err { IfErr result (IsMergeFault (inputs_in options.now (contents_of bytes.now))) }
{
    match cut_files(alloc, bytes, options) {
        Ok(cut) => merge_cut(alloc, &cut, options),
        Err(fault) => Err(MergeFault::of_given(fault)),
    }
}
