// How far branches and jumps reach.

ghost use Rattle.std.specs.Prelude.{◌≡◌};
ghost use Rattle.psabi_reloc.specs.Reaches.{branch_reach, jal_reach, short_branch_reach, short_jump_reach};

/// Whether a conditional branch reaches a distance.
pub fn branch_reaches(distance: i32) -> bool
    ensures { result ≡ branch_reach distance }
{
    -4096 <= distance && distance < 4096 && distance % 2 == 0
}

/// Whether `jal` reaches a distance.
pub fn jal_reaches(distance: i32) -> bool
    ensures { result ≡ jal_reach distance }
{
    -0x10_0000 <= distance && distance < 0x10_0000 && distance % 2 == 0
}

/// Whether `c.j` and `c.jal` reach so far.
pub fn short_jump_reaches(distance: i32) -> bool
    ensures { result ≡ short_jump_reach distance }
{
    -2048 <= distance && distance < 2048 && distance % 2 == 0
}

/// Whether `c.beqz` and `c.bnez` reach so far.
pub fn short_branch_reaches(distance: i32) -> bool
    ensures { result ≡ short_branch_reach distance }
{
    -256 <= distance && distance < 256 && distance % 2 == 0
}
