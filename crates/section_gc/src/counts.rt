// How much code is needed, of how much.

ghost use Rattle.std.specs.Prelude.{◌≡◌, ◌+◌, ◌^◌, ◌≤◌, ◌<◌, length};
ghost use Rattle.psabi_sym.specs.Indexed.{all_sections};
ghost use Rattle.psabi_sym.specs.Inputs.{parsed};
ghost use Rattle.section_gc.specs.Counts.{code_counts, with_code};
ghost use Rattle.section_gc.specs.Marked.{needed_by};

use psabi_sym::objects::Objects;

/// How many sections of code are needed of how many, and how many bytes these have of how many.
#[derive(Clone, Copy)]
pub struct CodeCounts {
    pub kept: u32,
    pub all: u32,
    pub bytes: u32,
    pub from: u32,
}

impl CodeCounts {
    // Counts with one section of code more.
    fn with_code(self, size: u32, needed: bool) -> CodeCounts
        requires kept { self.kept ≤ self.all }
        requires all { self.all < 0x10_0000 }
        requires bytes { self.bytes ≤ self.from }
        requires from { self.from + size < 2 ^ 32 }
        ensures { result ≡ with_code self size needed }
    {
        let (one, bytes) = if needed { (1, size) } else { (0, 0) };
        CodeCounts {
            kept: self.kept + one,
            all: self.all + 1,
            bytes: self.bytes + bytes,
            from: self.from + size,
        }
    }
}

/// How much of the objects' code is needed, in time linear in the sections.
pub fn code_counts(objects: &Objects, marks: &[bool]) -> CodeCounts
    requires { length marks.now ≡ length (all_sections (parsed objects.now).objects) }
    ensures { result ≡ code_counts (needed_by objects.now marks.now) (all_sections (parsed objects.now).objects) }
{
    let mut counts = CodeCounts {
        kept: 0,
        all: 0,
        bytes: 0,
        from: 0,
    };
    for k in 0..objects.section_count() {
        let row = objects.section_row(k);
        if row.is_code() {
            counts = counts.with_code(row.size, marks[k as usize]);
        }
    }
    counts
}
