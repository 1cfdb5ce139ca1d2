// The files of the objects that a command reads.

ghost use Rattle.std.specs.Prelude.{◌≡◌, ◌<◌, ◌+◌, ◌++◌, ◌∷◌, ◌^◌, [], false, List, ℕ, IfErr, IfOk, IfSome, None, length};
ghost use Rattle.std.specs.Option.{option_map, option_or};
ghost use Rattle.elf32_read.specs.Object.{object_fault};
ghost use Rattle.psabi_sym.specs.Faults.{gather_fault};
ghost use Rattle.psabi_sym.specs.Inputs.{inputs_in};
ghost use Rattle.psabi_sym.specs.LinkFault.{IsNameless, IsRefusal};
ghost use Rattle.psabi_sym.specs.Objects.{contents_of};
ghost use Rattle.zc_base.specs.MemMap.{IsMap};
ghost use Rattle.zc_base.specs.Options.{Options};
ghost use Rattle.zc_outside.specs.Wanted.{AreRead, ReadsAll};
ghost use Rattle.command_words.specs.Command.{texts};
ghost use Rattle.zcld.specs.Objects.{AreGathered, EndsWithout, IsUngathered, objects_wanted};
ghost use Rattle.zcld.specs.Reading.{AreKept, Keeps, KeepsAll};
ghost use Rattle.zcld.specs.Task.{UnreadCause};

use crate::ending::Ending;
use crate::limits::OBJECT_LIMIT;
use crate::outcome::Outcome;
use elf32_read::fault::Fault;
use elf32_read::object::Object;
use psabi_sym::link_fault::LinkFault;
use psabi_sym::long_files::long_files_refusal;
use psabi_sym::objects::{MOST_OBJECTS, Objects};
use psabi_sym::sums::MOST_BYTES;
use std::alloc::{AllocError, Global};
use zc_base::link_options::LinkOptions;
use zc_outside::read_files::read_file;
use zc_outside::store::Store;

/// What is read of objects so far: whether there are too many for a link, how many bytes those that are kept have, the
/// first fault of reading one of the others, and the files that are kept. Once it is known that the objects are refused,
/// no more of them are kept.
#[derive(Drop)]
pub struct Reading {
    are_many: bool,
    bytes: u64,
    later: Option<(u32, Fault)>,
    files: Vec<Vec<u8>>,
}

// The fault that was found before, or else that of reading this object, with its index.
fn earlier_read_fault(before: Option<(u32, Fault)>, index: u32, file: &[u8]) -> Option<(u32, Fault)>
    ensures { result ≡ option_or before (option_map (λ fault. (index, fault)) (object_fault file.now)) }
{
    if before.is_some() {
        return before;
    }
    match Object::read(file) {
        Ok(_) => None,
        Err(fault) => Some((index, fault)),
    }
}

impl Reading {
    // Keeps one more object if that is needed, and judges it if it isn't kept.
    fn add(&mut self, index: usize, file: Vec<u8>) -> Result<(), AllocError>
        requires few { self.old.are_many ≡ false → index < 2 ^ 32 }
        ensures keeps { IfOk result (λ _. (read : List (List ℕ)) → Keeps read self.old → length read ≡ index
            → Keeps (read ++ file.items ∷ []) self.new) }
        ensures many { self.new.are_many ≡ self.old.are_many }
    {
        if self.are_many {
            return Ok(());
        }
        if MOST_BYTES < self.bytes {
            self.later = earlier_read_fault(self.later, index as u32, &file);
            return Ok(());
        }
        self.bytes += file.len() as u64;
        self.files.push(file)?;
        Ok(())
    }

    // Why the objects, of which these are kept, aren't linked under any options, if there are too many or they have too many
    // bytes.
    fn refusal(&self, alloc: Global) -> Option<LinkFault>
        requires { (read : List (List ℕ)) × KeepsAll read self.now }
        ensures none { result ≡ None → (read : List (List ℕ)) → KeepsAll read self.now
            → read ≡ contents_of self.now.files.items }
        ensures some { IfSome result (λ fault. (read : List (List ℕ)) → KeepsAll read self.now → (options : Options)
            → IsRefusal (gather_fault (inputs_in options read)) fault × IsNameless fault) }
    {
        if self.are_many {
            return Some(LinkFault::Object {
                index: MOST_OBJECTS as u32,
                fault: Fault::TooLarge,
            });
        }
        if MOST_BYTES < self.bytes {
            return Some(long_files_refusal(alloc, self.files.as_slice(), self.later));
        }
        None
    }
}

/// The files of the objects under these names, or how the call ends without them. Each is read, and no more are kept
/// than a link takes, and one.
pub fn read_objects<S: Store>(
    alloc: Global,
    names: &[String],
    store: &mut S,
) -> Result<Vec<Vec<u8>>, Outcome>
    ensures ok { IfOk result (λ files. AreRead (S.shown store.old).files (objects_wanted (texts names.now))
        (contents_of files.items)) }
    ensures err { IfErr result (λ outcome. (options : Options) (left : List (List ℕ))
        → EndsWithout options (texts names.now) left outcome (S.shown store.old) (S.shown store.new)) }
    ensures reads { ReadsAll (objects_wanted (texts names.now)) (S.shown store.old) (S.shown store.new) }
{
    let reading = read_all(alloc, names, store)?;
    match reading.refusal(alloc) {
        None => Ok(reading.files),
        Some(fault) => Err(Outcome::from(fault)),
    }
}

/// Reads the objects under these names before any of them is judged, or says how the call ends where one can't be read.
pub fn read_all<S: Store>(
    alloc: Global,
    names: &[String],
    store: &mut S,
) -> Result<Reading, Outcome>
    ensures ok { IfOk result (λ reading. AreKept (texts names.now) reading (S.shown store.old).files) }
    ensures err { IfErr result
        (UnreadCause (objects_wanted (texts names.now)) (S.shown store.old) (S.shown store.new)) }
    ensures reads { ReadsAll (objects_wanted (texts names.now)) (S.shown store.old) (S.shown store.new) }
{
    let mut reading = Reading {
        are_many: MOST_OBJECTS < names.len(),
        bytes: 0,
        later: None,
        files: Vec::new(alloc),
    };
    for (i, name) in names.iter().enumerate() {
        let file = read_file(alloc, name.as_str(), OBJECT_LIMIT, store)?;
        reading.add(i, file)?;
    }
    Ok(reading)
}

/// The objects of the files that were read, under the options, or how the command ends without them. Objects are a copy of their
/// files, which are let go, unless a refusal may name something in them.
pub fn gather(alloc: Global, reading: Reading, options: &LinkOptions) -> Result<Objects, Ending>
    requires map { IsMap options.now.map }
    requires read { (read : List (List ℕ)) × KeepsAll read reading }
    ensures ok { IfOk result (λ objects. (read : List (List ℕ)) → KeepsAll read reading
        → (objects ≡ inputs_in options.now read) × (gather_fault objects ≡ None)) }
    ensures err { IfErr result (λ ending. (read : List (List ℕ)) → KeepsAll read reading
        → IsUngathered options.now read (contents_of ending.files.items) ending.outcome) }
{
    if let Some(fault) = reading.refusal(alloc) {
        return Err(Ending::alone(alloc, Outcome::from(fault)));
    }
    let files = reading.files;
    match Objects::gather(alloc, files.as_slice(), options) {
        Ok(objects) => Ok(objects),
        Err(fault) => Err(Ending {
            outcome: Outcome::from(fault),
            files,
        }),
    }
}

/// The objects under these names, under the options, or how the command ends without them.
pub fn gather_named<S: Store>(
    alloc: Global,
    names: &[String],
    options: &LinkOptions,
    store: &mut S,
) -> Result<Objects, Ending>
    requires { IsMap options.now.map }
    ensures ok { IfOk result (λ objects. AreGathered options.now (texts names.now) objects (S.shown store.old).files) }
    ensures err { IfErr result (λ ending. EndsWithout options.now (texts names.now) (contents_of ending.files.items)
        ending.outcome (S.shown store.old) (S.shown store.new)) }
    ensures reads { ReadsAll (objects_wanted (texts names.now)) (S.shown store.old) (S.shown store.new) }
{
    match read_all(alloc, names, store) {
        Ok(reading) => gather(alloc, reading, options),
        Err(outcome) => Err(Ending::alone(alloc, outcome)),
    }
}
