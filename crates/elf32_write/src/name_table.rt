// Tables of names (System V gABI, "String Table").

ghost use Rattle.std.specs.Prelude.{◌≡◌, ◌^◌, ◌<◌, ◌++◌, length, IfOk, OnOk};
ghost use Rattle.elf32_write.specs.NameTable.{name_bytes, name_start};

use std::alloc::AllocError;

/// Appends a name to a table of names. Returns the offset at which it begins, 0 for an empty name.
pub fn push_name(table: &mut Vec<u8>, name: &[u8]) -> Result<u32, AllocError>
    requires { length table.old.items < 2 ^ 32 }
    ensures start { IfOk result (λ start. start ≡ name_start (length table.old.items) name.now) }
    ensures table { OnOk result (table.new.items ≡ table.old.items ++ name_bytes name.now) }
{
    let [_, ..] = name else {
        return Ok(0);
    };
    let start = table.len() as u32;
    table.extend_from_slice(name)?;
    table.push(0)?;
    Ok(start)
}
