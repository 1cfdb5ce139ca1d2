// A command with the options of its link or its memory map, its files and its numbers, as the words say.

use zc_base::link_options::LinkOptions;
use zc_base::mem_map::MemMap;

/// The bytes of the stack if no word says where it begins.
pub const USUAL_STACK: u32 = 0x0010_0000;

/// The most steps that a word may allow.
pub const MOST_STEPS: u64 = 1_000_000_000;

/// The steps that are allowed if no word says.
pub const USUAL_STEPS: u64 = 10_000_000;

/// The most functions that a word may ask for: as many as `load_maker` makes at most.
pub const MOST_FUNCTIONS: u64 = 1_600;

/// What `plain` links: the objects, at least one, under the options, to an image under the name `out`.
#[derive(Drop)]
pub struct PlainArgs<'a> {
    pub options: LinkOptions,
    pub out: &'a str,
    pub objects: Vec<String>,
}

/// What `zc` links: the objects, at least one, under the options, to an image under the name `out`, with the
/// certificate of its table under `cert`. The two names differ.
#[derive(Drop)]
pub struct ZcArgs<'a> {
    pub options: LinkOptions,
    pub out: &'a str,
    pub cert: &'a str,
    pub objects: Vec<String>,
}

/// What `run` runs: an image that lies in the map, and its devices and the plan of its interrupts if there are any, by
/// their names, for at most `steps` commits.
#[derive(Clone, Copy)]
pub struct RunArgs<'a> {
    pub map: MemMap,
    pub devices: Option<&'a str>,
    pub plan: Option<&'a str>,
    pub steps: u64,
    pub image: &'a str,
}

/// What `trace` runs: the objects, at least one, under the options, and the devices under a name if there are any, for
/// at most `steps` steps.
#[derive(Drop)]
pub struct TraceArgs<'a> {
    pub options: LinkOptions,
    pub devices: Option<&'a str>,
    pub steps: u64,
    pub objects: Vec<String>,
}

/// What `make` makes: objects with `functions` functions, the same for the same number. Their files' names begin with
/// the prefix; without one they aren't put.
#[derive(Clone, Copy)]
pub struct MakeArgs<'a> {
    pub prefix: Option<&'a str>,
    pub number: u64,
    pub functions: u32,
}

/// What `gc` leaves the code out of that nothing reaches: the objects, at least one, of a program under the options.
/// The names of the files that it puts begin with the prefix.
#[derive(Drop)]
pub struct GcArgs<'a> {
    pub options: LinkOptions,
    pub prefix: &'a str,
    pub objects: Vec<String>,
}

/// What `merge` shares equal ends of functions in: the objects, at least one, of a program under the options. The names
/// of the files that it puts begin with the prefix.
#[derive(Drop)]
pub struct MergeArgs<'a> {
    pub options: LinkOptions,
    pub prefix: &'a str,
    pub objects: Vec<String>,
}

/// What `share` links and runs: the objects, at least one, under the options, to an image under the name `out`, which
/// runs under the plan of interrupts that also write shared data, for at most `steps` commits.
#[derive(Drop)]
pub struct ShareArgs<'a> {
    pub options: LinkOptions,
    pub out: &'a str,
    pub plan: &'a str,
    pub steps: u64,
    pub objects: Vec<String>,
}

/// What `list` lists: an image that lies in the map.
#[derive(Clone, Copy)]
pub struct ListArgs<'a> {
    pub map: MemMap,
    pub image: &'a str,
}

/// A command, with the names of its files.
#[derive(Drop)]
pub enum CommandLine<'a> {
    Plain(PlainArgs<'a>),
    Zc(ZcArgs<'a>),
    Run(RunArgs<'a>),
    Trace(TraceArgs<'a>),
    Check { cert: &'a str },
    Make(MakeArgs<'a>),
    Gc(GcArgs<'a>),
    Merge(MergeArgs<'a>),
    Share(ShareArgs<'a>),
    List(ListArgs<'a>),
}
