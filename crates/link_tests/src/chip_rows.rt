// Objects that take fewer bytes with one of the extensions or another, and rows about each, by the extensions of chips.
// Halfwords are those of LLVM's assembler (19), and the counts were worked out by hand.

/// An instruction of each form of Zcb, and `addi a0,a0,1`, which has one of Zca.
pub const FORMS: &str =
    "alone 0015c503 0025d503 00259503 00a580a3 00a59123 0ff57513 fff54513 02b50533 00150513";

pub const FORMS_ROWS: &str = "
zca_zcb zca_zcb_zcmp zca_zcb_zcmt zca_zcb_zcmp_zcmt @ zc text = 81c8 85a8 85e8 89c8 8da8 9d61 9d75 9d4d 0505
zca zca_zcmp zca_zcmt zca_zcmp_zcmt @ zc text = c503 0015 d503 0025 9503 0025 80a3 00a5 9123 00a5 7513 0ff5 4513 fff5 0533 02b5 0505 | four bytes each without Zcb
zca zca_zcb_zcmp_zcmt @ plain text = c503 0015 d503 0025 9503 0025 80a3 00a5 9123 00a5 7513 0ff5 4513 fff5 0533 02b5 0513 0015 | as they are
";

/// `lbu a0,0(a1)` with the lower part of 1, whose form is of Zcb.
pub const LOWER_PART: &str = "alone 0005c503 0:0:5:27:-15";

pub const LOWER_PART_ROWS: &str = "
zca_zcb zca_zcb_zcmp zca_zcb_zcmt zca_zcb_zcmp_zcmt @ zc text = 81c8
zca zca_zcmp zca_zcmt zca_zcmp_zcmt @ zc text = c503 0015
";

/// Code of 16 bits with `c.lbu`, `c.not`, `c.addi`, `cm.push` and `cm.popret`.
pub const HALFWORDS: &str = "alone 36:1 81c8 9d75 0505 b842 be42";

pub const HALFWORDS_ROWS: &str = "
zca_zcb zca_zcb_zcmp zca_zcb_zcmt zca_zcb_zcmp_zcmt @ zc text = 81c8 9d75 0505 b842 be42
zca zca_zcmp zca_zcmt zca_zcmp_zcmt @ zc text = c503 0015 4513 fff5 0505 b842 be42 | what isn't an item is copied
zca zca_zcb zca_zcmp zca_zcmt zca_zcb_zcmp zca_zcb_zcmt zca_zcmp_zcmt zca_zcb_zcmp_zcmt @ plain text = 81c8 9d75 0505 b842 be42 | the plain link copies all
";

/// A push, both pairs of moves, a pop, and after another push those pops that return, with and without 0.
pub const GROUPS: &str =
    "alone ff010113 00112623 00050413 00058493 00040513 00048593 00c12083 01010113 ff010113 00112623 \
00c12083 01010113 00008067 00000513 00c12083 01010113 00008067";

pub const GROUPS_ROWS: &str = "
zca_zcmp zca_zcb_zcmp zca_zcmp_zcmt zca_zcb_zcmp_zcmt @ zc text = b842 ac26 ac66 ba42 b842 be42 bc42
zca zca_zcb zca_zcmt zca_zcb_zcmt @ zc text = 1141 c606 842a 84ae 8522 85a6 40b2 0141 1141 c606 40b2 0141 8082 4501 40b2 0141 8082 | item by item without Zcmp
zca_zcmp zca_zcb_zcmp zca_zcmp_zcmt zca_zcb_zcmp_zcmt @ zc counts = 68 14 17 0 0 2 3 2
zca zca_zcb zca_zcmt zca_zcb_zcmt @ zc counts = 68 34 17 17 0 0 0 0
";

/// A push in a frame of 128 bytes, whose rest takes two bytes by Zca.
pub const LARGE_FRAME: &str = "alone f8010113 06812e23 06112c23";

pub const LARGE_FRAME_ROWS: &str = "
zca_zcmp zca_zcb_zcmp zca_zcmp_zcmt zca_zcb_zcmp_zcmt @ zc text = b85e 7139
zca zca_zcb zca_zcmt zca_zcb_zcmt @ zc text = 7119 dea2 dc86
";

/// Ten jumps to the last instruction, too far for two bytes each; all others take four.
pub const JUMPS: &str =
    "alone 1890006f 1850006f 1810006f 17d0006f 1790006f 1750006f 1710006f 16d0006f 1690006f 1650006f \
115*601";

pub const JUMPS_ROWS: &str = "
zca_zcmt zca_zcb_zcmt zca_zcmp_zcmt zca_zcb_zcmp_zcmt @ zc start = 0984 0001 02b7 0001 | a table of one slot, which leads to 0x10984, and its stub
zca zca_zcb zca_zcmp zca_zcb_zcmp @ zc start = 006f 1890 006f 1850 | two of the jumps
zca_zcmt zca_zcb_zcmt zca_zcmp_zcmt zca_zcb_zcmp_zcmt @ zc counts = 2444 2440 611 0 0 0 0 0
zca zca_zcb zca_zcmp zca_zcb_zcmp @ zc counts = 2444 2444 611 0 0 0 0 0
";

/// The jumps, then all forms and groups: what each of the eight chips saves.
pub const ALL: &str =
    "alone 1f10006f 1ed0006f 1e90006f 1e50006f 1e10006f 1dd0006f 1d90006f 1d50006f 1d10006f 1cd0006f \
0015c503 0025d503 00259503 00a580a3 00a59123 0ff57513 fff54513 02b50533 00150513 ff010113 00112623 \
00050413 00058493 00040513 00048593 00c12083 01010113 ff010113 00112623 00c12083 01010113 00008067 \
00000513 00c12083 01010113 00008067 115*601";

pub const ALL_ROWS: &str = "
zca @ zc counts = 2548 2512 637 18 0 0 0 0
zca_zcb @ zc counts = 2548 2496 637 26 0 0 0 0
zca_zcmp @ zc counts = 2548 2492 637 1 0 2 3 2
zca_zcmt @ zc counts = 2548 2508 637 18 0 0 0 0
zca_zcb_zcmp @ zc counts = 2548 2476 637 9 0 2 3 2
zca_zcb_zcmt @ zc counts = 2548 2492 637 26 0 0 0 0
zca_zcmp_zcmt @ zc counts = 2548 2488 637 1 0 2 3 2
zca_zcb_zcmp_zcmt @ zc counts = 2548 2472 637 9 0 2 3 2
";
