// Where a program starts.

ghost use Rattle.std.specs.Prelude.{◌≡◌, length, map, slice_index_or};
ghost use Rattle.psabi_sym.specs.Invariants.Rows.{name_number};
ghost use Rattle.psabi_sym.specs.Start.{start_name};
ghost use Rattle.psabi_sym.specs.declared.meaning.Meaning.TheVariants.{Nothing};

use crate::meaning::Meaning;

/// What `_start` stands for, by names and what each of them stands for. It looks through all names.
pub fn start_meaning(names: &[&[u8]], meanings: &[Meaning]) -> Meaning
    requires { length meanings.now ≡ length names.now }
    ensures { result
        ≡ slice_index_or meanings.now (name_number (map (λ name. name.now) names.now) start_name) Nothing }
{
    for (k, name) in names.iter().enumerate() {
        if *name == b"_start".as_slice() {
            return meanings[k];
        }
    }
    Meaning::Nothing
}
