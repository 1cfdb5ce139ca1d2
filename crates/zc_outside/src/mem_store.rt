// A store in memory, some of whose calls fail.

ghost use Rattle.std.specs.Prelude.{◌≡◌, ◌≤◌, ◌<◌, ◌-◌, ◌^◌, ◌⊎◌, ◌↔◌, [], Some, None, length, Contains, IfOk, IfErr, OnOk, OnErr, IsErrOf};
ghost use Rattle.std.specs.Option.{option_copied};
ghost use Rattle.zc_outside.specs.MemStore.{after_get, after_put, file_in, shelf_of, with_file};
ghost use Rattle.zc_outside.specs.Shelf.{GetCause, PutCause};

use crate::calls::NumberedCalls;
use crate::store::{Store, StoreFault};
use std::alloc::{AllocError, Global};
use std::collections::BTreeMap;
use std::marker::Model;

/// Files in memory.
///
/// The calls of `get` and `put` are numbered together, from 0; those whose numbers were given to `new`
/// fail. Numbers stop at 2^32 - 1, which all later calls have too.
#[derive(Drop)]
pub struct MemStore {
    alloc: Global,
    files: BTreeMap<String, Vec<u8>>,
    calls: NumberedCalls,
    read_faults: u64,
    long_files: u64,
    write_faults: u64,
    write_memory_faults: u64,
}

impl Model for MemStore {
    ghost use Rattle.zc_outside.specs.MemStore.{StoreState, files_of};

    ghost Value = { StoreState };

    ghost view = { λ s. record {
      files = files_of s.files.entries;
      fails = s.calls.failing.items;
      calls = s.calls.made;
      read_faults = s.read_faults;
      long_files = s.long_files;
      write_faults = s.write_faults;
      write_memory_faults = s.write_memory_faults;
    } };
}

#[tactic(auto, using(crate::proofs::MemFiles::map_as_files))]
impl MemStore {
    /// A store that holds no file, and whose calls with these numbers fail.
    pub fn new(alloc: Global, fails: &[u32]) -> Result<MemStore, AllocError>
        ensures { IfOk result (λ s. s ≡ record {
          files = [];
          fails = fails.now;
          calls = 0;
          read_faults = 0;
          long_files = 0;
          write_faults = 0;
          write_memory_faults = 0;
        }) }
    {
        let calls = NumberedCalls::new(alloc, fails)?;
        Ok(MemStore {
            alloc,
            files: BTreeMap::new(alloc),
            calls,
            read_faults: 0,
            long_files: 0,
            write_faults: 0,
            write_memory_faults: 0,
        })
    }

    /// Stores these bytes under a name. This is no numbered call.
    pub fn add(&mut self, name: &str, bytes: &[u8]) -> Result<(), AllocError>
        ensures ok { OnOk result (self.new ≡
            record self.old { files = with_file self.old.files name.now bytes.now }) }
        ensures err { OnErr result (self.new ≡ self.old) }
    {
        let name = name.to_owned(self.alloc)?;
        let bytes = Vec::from_slice(self.alloc, bytes)?;
        self.files.insert(name, bytes)?;
        Ok(())
    }

    /// The bytes under a name.
    pub fn file(&self, name: &str) -> Option<&[u8]>
        ensures { option_copied result ≡ file_in self.now.files name.now }
    {
        match self.files.get(name) {
            Some(bytes) => Some(bytes.as_slice()),
            None => None,
        }
    }
}

impl Store for MemStore {
    ghost shown = { shelf_of };

    /// Also fails if the store doesn't hold the name.
    fn get(&mut self, alloc: Global, name: &str, limit: u32) -> Result<Vec<u8>, StoreFault>
        requires { limit < 2 ^ 32 - 1 }
        ensures within { IfOk result (λ v. length v.items ≤ limit) }
        ensures content { IfOk result (λ v. file_in self.old.files name.now ≡ Some v.items) }
        ensures failed { IsErrOf result StoreFault.Failed ↔
            (Contains self.old.fails self.old.calls ⊎ (file_in self.old.files name.now ≡ None)) }
        ensures cause { IfErr result (GetCause name.now limit (shelf_of self.old) (shelf_of self.new)) }
        ensures after { self.new ≡ after_get self.old result }
    {
        if self.calls.next_fails() {
            self.read_faults = self.read_faults.saturating_add(1);
            return Err(StoreFault::Failed);
        }
        match self.file(name) {
            None => {
                self.read_faults = self.read_faults.saturating_add(1);
                Err(StoreFault::Failed)
            }
            Some(bytes) if bytes.len() > limit as usize => {
                self.long_files = self.long_files.saturating_add(1);
                Err(StoreFault::TooLong { taken: limit + 1 })
            }
            Some(bytes) => Vec::from_slice(alloc, bytes).map_err(|_| StoreFault::OutOfMemory),
        }
    }

    fn put(&mut self, name: &str, bytes: &[u8]) -> Result<(), StoreFault>
        ensures failed { IsErrOf result StoreFault.Failed ↔ Contains self.old.fails self.old.calls }
        ensures cause { IfErr result (PutCause (shelf_of self.old) (shelf_of self.new)) }
        ensures after { self.new ≡ after_put self.old name.now bytes.now result }
    {
        if self.calls.next_fails() {
            self.write_faults = self.write_faults.saturating_add(1);
            return Err(StoreFault::Failed);
        }
        if self.add(name, bytes).is_err() {
            self.write_memory_faults = self.write_memory_faults.saturating_add(1);
            return Err(StoreFault::OutOfMemory);
        }
        Ok(())
    }
}
