// The command `list`: an image is read, and its listing is written.

ghost use Rattle.std.specs.Prelude.{◌≡◌, ◌⊎◌, ℕ, IfOk, IfErr, List, None, Some};
ghost use Rattle.command_words.specs.Command.{list_meant};
ghost use Rattle.zc_base.specs.MemMap.{IsMap};
ghost use Rattle.zc_outside.specs.World.{world};
ghost use Rattle.zcld.specs.Call.{DoesWith};
ghost use Rattle.zcld.specs.List.{IsListing};
ghost use Rattle.zcld.specs.Run.{image_refusal};

use crate::limits::IMAGE_LIMIT;
use crate::outcome::{FileFault, Outcome};
use crate::print::print_text;
use command_words::command_line::ListArgs;
use elf32_read::image::Image;
use std::alloc::Global;
use zc_base::mem_map::MemMap;
use zc_list::list::list as list_image;
use zc_outside::console::Console;
use zc_outside::read_files::read_file;
use zc_outside::store::Store;

/// Reads an image that lies in the map, and writes its listing.
///
/// No line about it names anything in the file, so the file isn't kept.
pub fn list<S: Store, C: Console>(
    alloc: Global,
    args: ListArgs,
    store: &mut S,
    console: &mut C,
) -> Outcome
    requires { IsMap args.map }
    ensures { (left : List (List ℕ)) → DoesWith (Some (list_meant args.entry)) left result
        (world (S.shown store.old) (C.shown console.old)) (world (S.shown store.new) (C.shown console.new)) }
{
    let file = match read_file(alloc, args.image, IMAGE_LIMIT, store) {
        Ok(file) => file,
        Err(fault) => return Outcome::from(fault),
    };
    match listing(alloc, file.as_slice(), args.map) {
        Ok(text) => print_text(text.as_slice(), console),
        Err(outcome) => outcome,
    }
}

// The listing of the image that a file holds, in the map, or why there is none.
fn listing(alloc: Global, file: &[u8], map: MemMap) -> Result<Vec<u8>, Outcome>
    requires { IsMap map }
    ensures ok { IfOk result (λ text. IsListing file.now text.items) }
    ensures accepted { IfOk result (λ text. image_refusal map file.now ≡ None) }
    ensures err { IfErr result (λ outcome.
        (image_refusal map file.now ≡ Some outcome) ⊎ (outcome ≡ Outcome.OutOfMemory)) }
{
    match Image::read(file, map) {
        Ok(image) => Ok(list_image(alloc, &image)?),
        Err(fault) => Err(Outcome::BadFile(FileFault::Image(fault))),
    }
}
