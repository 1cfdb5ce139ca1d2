// The program headers of an image that load its segments.

ghost use Rattle.std.specs.Prelude.{◌≡◌, ◌≤◌, ◌<◌, ◌+◌, ◌*◌, ◌++◌, List, [], ◌∷◌, length, take, MatchOption};
ghost use Rattle.elf32_read.specs.Header.{program_count, program_table};
ghost use Rattle.elf32_read.specs.Segments.{loads_of};
ghost use Rattle.elf32_read.specs.declared.header.ProgramHeader.{ProgramHeader};

use crate::header::{LOAD, ProgramHeader, program_count, program_header};
use std::marker::Model;

// The most segments that an image may have.
const MOST_LOADS: usize = 16;

const NONE: ProgramHeader = ProgramHeader {
    kind: 0,
    offset: 0,
    address: 0,
    physical: 0,
    file_size: 0,
    memory_size: 0,
    flags: 0,
    align: 0,
};

/// Program headers that load segments, in order.
#[derive(Drop)]
pub struct Loads {
    headers: [ProgramHeader; MOST_LOADS],
    count: usize,
}

impl Model for Loads {
    ghost Value = { List ProgramHeader };

    ghost view = { λ loads. take loads.count loads.headers };

    ghost invariant = { λ loads. loads.count ≤ 16 };
}

impl Loads {
    fn new() -> Loads
        ensures { result ≡ [] }
    {
        Loads {
            headers: [NONE; MOST_LOADS],
            count: 0,
        }
    }

    fn len(&self) -> usize
        ensures count { result ≡ length self.now }
        ensures most { result ≤ 16 }
    {
        self.as_slice().len()
    }

    /// The headers.
    pub fn as_slice(&self) -> &[ProgramHeader]
        ensures value { result.now ≡ self.now }
        ensures most { length self.now ≤ 16 }
    {
        &self.headers[..self.count]
    }

    fn push(&mut self, header: ProgramHeader)
        requires { length self.old < 16 }
        ensures { self.new ≡ self.old ++ header ∷ [] }
    {
        self.headers[self.count] = header;
        self.count += 1;
    }
}

/// The program headers of an image that load its segments, unless there are too many.
#[tactic(auto, unfolding(crate::specs::Segments::loads_of))]
pub fn loads_in(bytes: &[u8]) -> Option<Loads>
    requires start { 52 ≤ length bytes.now }
    requires within { program_table bytes.now + 32 * program_count bytes.now ≤ length bytes.now }
    ensures { MatchOption result
        (16 < length (loads_of bytes.now))
        (λ loads. loads ≡ loads_of bytes.now) }
{
    let mut loads = Loads::new();
    for i in 0..u32::from(program_count(bytes)) {
        let header = program_header(bytes, i);
        if header.kind == LOAD {
            if loads.len() == MOST_LOADS {
                return None;
            }
            loads.push(header);
        }
    }
    Some(loads)
}
