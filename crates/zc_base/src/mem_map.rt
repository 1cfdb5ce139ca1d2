// Where code, data and the stack lie, and which extensions a chip has.

ghost use Rattle.std.specs.Prelude.{◌≡◌, IfSome};
ghost use Rattle.zc_base.specs.MemMap.{IsMap, checked_map, data_limit, standard_map};

use crate::extensions::Extensions;

/// The size of a page in bytes: text begins at a multiple of it.
const PAGE: u32 = 4_096;

/// Data begin, and the stack begins and ends, at multiples of it.
const ALIGNMENT: u32 = 16;

/// The least room for code, below data.
const CODE_ROOM: u32 = 0x000F_0000;

/// The most bytes of data, wherever the stack lies.
const MOST_DATA: u32 = 0x0040_0000;

/// The highest address of data: 4 MiB, and what a global pointer may reach behind them, end at 2^32.
const HIGHEST_DATA: u32 = 0xFFBF_F000;

/// Where the memory of a program lies: code from `text` to below `data_low`, data from `data_low` to `stack_low` at
/// the most, and the stack from there to below `stack_high`. All are addresses. The extensions are those that the chip
/// has.
#[derive(Clone, Copy, PartialEq, Eq, Debug)]
pub struct MemMap {
    pub text: u32,
    pub data_low: u32,
    pub stack_low: u32,
    pub stack_high: u32,
    pub extensions: Extensions,
}

impl MemMap {
    /// The map that the linker uses if it is given no other.
    pub fn standard() -> MemMap
        ensures { result ≡ standard_map }
    {
        MemMap {
            text: 0x0001_0000,
            data_low: 0x0010_0000,
            stack_low: 0x0FF0_0000,
            stack_high: 0x1000_0000,
            extensions: Extensions::all(),
        }
    }

    /// The map, if a link may be made for it: text begins at a multiple of 4,096 above 0 and has 960 KiB of room below
    /// data; the other addresses are multiples of 16, in their order, the stack isn't empty, and 4 MiB of data don't
    /// pass the end of the address space.
    #[tactic(auto, unfolding(crate::specs::MemMap::checked_map))]
    pub fn checked(map: MemMap) -> Option<MemMap>
        ensures value { result ≡ checked_map map }
        ensures valid { IfSome result IsMap }
        // every map that the linker accepts passes
        ensures complete { IsMap map → checked_map map ≡ Some map }
    {
        let is_aligned = map.text % PAGE == 0
            && map.data_low % ALIGNMENT == 0
            && map.stack_low % ALIGNMENT == 0
            && map.stack_high % ALIGNMENT == 0;
        if !is_aligned || map.text == 0 || map.data_low > HIGHEST_DATA {
            return None;
        }
        let code_fits = u64::from(map.text) + u64::from(CODE_ROOM) <= u64::from(map.data_low);
        if !code_fits || map.data_low > map.stack_low || map.stack_low >= map.stack_high {
            return None;
        }
        Some(map)
    }

    /// The most bytes that data may take.
    pub fn data_limit(&self) -> u32
        ensures { result ≡ data_limit self.now }
    {
        self.stack_low.saturating_sub(self.data_low).min(MOST_DATA)
    }
}
