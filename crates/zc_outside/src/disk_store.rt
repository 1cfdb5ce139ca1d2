// A store over the system's files.

ghost use Rattle.std.specs.Prelude.{◌≡◌, false, ◌≤◌, ◌<◌, ◌+◌, ◌^◌, ◌++◌, ℕ, List, None, IfOk, IfSome, OnOk, MatchOption, length, vec_len, vec_capacity};
ghost use Rattle.std.specs.Io.KnownBytes.{Consumes, IsAtEnd};

use crate::file_write::put_file;
use crate::placed::Placed;
use crate::store::{Store, StoreFault};
use crate::transfer::read_some;
use crate::trouble::Trouble;
use std::alloc::{AllocError, Global};
use std::fs::OpenFile;
use std::io::Read;
use std::rt::{Files, Process};
use std::{fs, process};

// The most bytes that one read asks for, after the first.
const PIECE: usize = 8192;

/// The files of the system, by path. Their content is outside this program, so the store doesn't tell it.
#[derive(Drop)]
pub struct DiskStore<R> {
    rt: R,
    id: u32,
    placed: Vec<Placed>,
    read_faults: u64,
    long_files: u64,
    write_faults: u64,
    write_memory_faults: u64,
    buf: [u8; PIECE],
}

impl<R: Files + AllocGlobal> DiskStore<R> {
    /// The files of a runtime. The process's number is part of the names of temporary files.
    pub fn new(rt: R, process: Process) -> DiskStore<R>
        ensures { ⟦<DiskStore<R> as Store>⟧.shown result ≡
            record {
              files = None;
              read_faults = 0;
              long_files = 0;
              write_faults = 0;
              write_memory_faults = 0;
              sure = false;
            } }
    {
        let placed = Vec::new(rt.alloc());
        DiskStore {
            rt,
            id: process::id(process),
            placed,
            read_faults: 0,
            long_files: 0,
            write_faults: 0,
            write_memory_faults: 0,
            buf: [0; PIECE],
        }
    }
}

impl<R: Files + AllocGlobal> Store for DiskStore<R> {
    ghost shown = { λ s. record {
      files = None;
      read_faults = s.read_faults;
      long_files = s.long_files;
      write_faults = s.write_faults;
      write_memory_faults = s.write_memory_faults;
      sure = false;
    } };

    /// Reads at most `limit + 1` bytes of the file. The first read asks for as many as a regular file's
    /// length says. What comes after it, and what has no length, such as a pipe, is read in pieces.
    fn get(&mut self, alloc: Global, name: &str, limit: u32) -> Result<Vec<u8>, StoreFault> {
        let most = limit as usize + 1;
        let read = match fs::open(&self.rt, name) {
            Ok(mut file) => match room_for(alloc, &file, most) {
                Ok(room) => read_below(room, &mut file, &mut self.buf, most),
                Err(trouble) => Err(trouble),
            },
            Err(fault) => Err(Trouble::from(fault)),
        };
        match read {
            Ok(Some(bytes)) => Ok(bytes),
            Ok(None) => {
                self.long_files = self.long_files.saturating_add(1);
                Err(StoreFault::TooLong { taken: limit + 1 })
            }
            Err(trouble) => Err(trouble.refuse_get(&mut self.read_faults)),
        }
    }

    /// A regular file is written to a new file in the same folder, which gets the old file's
    /// permissions, is synced, and is then renamed over it. So a refusal leaves the old file as it was.
    /// The system may still have to bring the new name to a disk. A symbolic link stays, and the file that
    /// it names is replaced. A file that was put here under another name is refused. What is no regular
    /// file, such as a device or a pipe, is written in place, and may be refused halfway.
    fn put(&mut self, name: &str, bytes: &[u8]) -> Result<(), StoreFault> {
        match put_file(&self.rt, self.id, &mut self.placed, name, bytes) {
            Ok(()) => Ok(()),
            Err(trouble) => {
                Err(trouble.refuse_put(&mut self.write_faults, &mut self.write_memory_faults))
            }
        }
    }
}

// As many zeros as a regular file's length says, but at most `most`, and none for another file.
fn room_for<F: OpenFile>(alloc: Global, file: &F, most: usize) -> Result<Vec<u8>, Trouble>
    ensures { IfOk result (λ room. vec_len room ≤ most) }
{
    let known = file.metadata()?;
    let mut room = Vec::new(alloc);
    if known.is_file() {
        let len = known.len().min(most as u64) as usize;
        room.reserve_exact(len)?;
        room.resize(len, 0)?;
    }
    Ok(room)
}

// All bytes that a reader has left, or `None` if there are `most` or more. One read fills `bytes` as far as it can, and
// what comes after that goes through a buffer.
fn read_below<F: Read>(
    mut bytes: Vec<u8>,
    file: &mut F,
    buf: &mut [u8; PIECE],
    most: usize,
) -> Result<Option<Vec<u8>>, Trouble>
    requires room { vec_len bytes ≤ most }
    requires some { 0 < most }
    requires fits { most < 2 ^ 33 }
    ensures within { IfOk result (λ read. IfSome read (λ v. vec_len v < most)) }
    ensures bytes { IfSome (F.remaining file.old) (λ left. IfOk result (λ read.
        MatchOption read (most ≤ length left) (λ v. v.items ≡ left))) }
{
    read_first(file, &mut bytes)?;
    while bytes.len() < most {
        if read_piece(file, buf, &mut bytes, most)? == 0 {
            return Ok(Some(bytes));
        }
    }
    Ok(None)
}

// Reads once, as much as there are bytes to be replaced, and keeps those that came. Without any nothing is read.
fn read_first<F: Read>(file: &mut F, bytes: &mut Vec<u8>) -> Result<(), Trouble>
    ensures within { vec_len bytes.new ≤ vec_len bytes.old }
    ensures first { OnOk result (Consumes (F.remaining file.old) (F.remaining file.new) bytes.new.items) }
{
    let mut count = 0;
    if !bytes.is_empty() {
        count = read_some(file, bytes.as_mut_slice())?;
    }
    bytes.truncate(count);
    Ok(())
}

// Reads a piece, appends it to the bytes so far, which become at most `most`, and returns its length.
fn read_piece<F: Read>(
    file: &mut F,
    buf: &mut [u8; PIECE],
    bytes: &mut Vec<u8>,
    most: usize,
) -> Result<usize, Trouble>
    requires room { vec_len bytes.old < most }
    requires fits { most < 2 ^ 33 }
    ensures within { IfOk result (λ _. vec_len bytes.new ≤ most) }
    ensures piece { IfOk result (λ n. (piece : List ℕ) × (length piece ≡ n)
        × (bytes.new.items ≡ bytes.old.items ++ piece)
        × Consumes (F.remaining file.old) (F.remaining file.new) piece) }
    ensures end { IfOk result (λ n. n ≡ 0 → IsAtEnd (F.remaining file.new)) }
{
    let room = PIECE.min(most - bytes.len());
    let count = read_some(file, &mut buf[..room])?;
    make_room(bytes, count, most)?;
    bytes.extend_from_slice(&buf[..count])?;
    Ok(count)
}

// Makes room for `count` more bytes, and for no more than `most` in all.
fn make_room(bytes: &mut Vec<u8>, count: usize, most: usize) -> Result<(), AllocError>
    requires fits { vec_len bytes.old + count ≤ most }
    requires small { most < 2 ^ 33 }
    ensures same { bytes.new.items ≡ bytes.old.items }
    ensures room { OnOk result (vec_len bytes.new + count ≤ vec_capacity bytes.new) }
    ensures most { vec_capacity bytes.old ≤ most → vec_capacity bytes.new ≤ most }
{
    let len = bytes.len();
    let capacity = bytes.capacity();
    if capacity - len < count {
        let wanted = capacity.saturating_mul(2).max(len + count).min(most);
        bytes.reserve_exact(wanted - len)?;
    }
    Ok(())
}
