// The memory of a machine at its start (System V gABI, "Program Loading").

ghost use Rattle.std.specs.Prelude.{◌≡◌, ◌-◌, ◌++◌, IfOk, length};
ghost use Rattle.elf32_read.specs.Segment.{segment_data};
ghost use Rattle.elf32_read.specs.Segments.{segments_of};
ghost use Rattle.rv_decode.specs.Memory.{Stack, blank};
ghost use Rattle.zc_machine.specs.Load.{first_memory, region_of};

use crate::region::{Region, RegionKind};
use elf32_read::image::Image;
use elf32_read::segment::Segment;
use std::alloc::{AllocError, Global};
use zc_base::mem_map::MemMap;

/// The regions of an image: its segments, and the stack.
pub fn first_regions(alloc: Global, image: &Image) -> Result<Vec<Region>, AllocError>
    ensures { IfOk result (λ regions. regions.items ≡ first_memory (segments_of image.now.0) image.now.1) }
{
    let count = image.segment_count();
    let mut regions = Vec::with_capacity(alloc, count as usize + 1)?;
    for i in 0..count {
        regions.push(segment_region(alloc, &image.segment(i))?)?;
    }
    regions.push(stack(alloc, &image.map())?)?;
    Ok(regions)
}

fn segment_region(alloc: Global, segment: &Segment) -> Result<Region, AllocError>
    ensures { IfOk result (λ region. region ≡ region_of (segment_data segment.now)) }
{
    if segment.code {
        let code = padded(alloc, segment.bytes, segment.size)?;
        Region::of_code(alloc, segment.at, code)
    } else {
        Region::of_data(alloc, RegionKind::Data, segment)
    }
}

fn stack(alloc: Global, map: &MemMap) -> Result<Region, AllocError>
    ensures { IfOk result (λ region. region
        ≡ record { kind = Stack; at = map.now.stack_low; cells = blank (map.now.stack_high - map.now.stack_low) 0 }) }
{
    let segment = Segment {
        at: map.stack_low,
        size: map.stack_high.saturating_sub(map.stack_low),
        code: false,
        bytes: &[],
    };
    Region::of_data(alloc, RegionKind::Stack, &segment)
}

// The bytes, and zeros after them up to this size.
fn padded(alloc: Global, bytes: &[u8], size: u32) -> Result<Vec<u8>, AllocError>
    ensures { IfOk result (λ cells. cells.items ≡ bytes.now ++ blank (size - length bytes.now) 0) }
{
    let size = bytes.len().max(size as usize);
    let mut cells = Vec::with_capacity(alloc, size)?;
    cells.extend_from_slice(bytes)?;
    cells.resize(size, 0)?;
    Ok(cells)
}
