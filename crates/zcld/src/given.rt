// Texts that a command may be given beside its image or its objects: of devices, or of a plan.

ghost use Rattle.std.specs.Prelude.{◌≡◌, ◌⊎◌, ◌<◌, ◌-◌, ◌^◌, IfOk, IfErr, Ok, Err, option_copied};
ghost use Rattle.zc_outside.specs.Wanted.{AreRead, ReadCause, ReadsAll};
ghost use Rattle.zcld.specs.Given.{IsGiven, lines_given, text_file, text_held, text_wanted};

use devices::device_list::Devices;
use devices::fault::DevicesFault;
use devices::read_devices::read_devices;
use std::alloc::Global;
use zc_base::mem_map::MemMap;
use zc_outside::read_files::{ReadFault, read_file};
use zc_outside::store::Store;

/// The bytes of the text with this name, if one is given.
pub fn read_given<S: Store>(
    alloc: Global,
    name: Option<&str>,
    limit: u32,
    store: &mut S,
) -> Result<Option<Vec<u8>>, ReadFault>
    requires { limit < 2 ^ 32 - 1 }
    ensures given { IfOk result (λ text. IsGiven (option_copied name.entry) (text_held text)) }
    ensures ok { IfOk result (λ text.
        AreRead (S.shown store.old).files (text_wanted limit (option_copied name.entry)) (text_file (text_held text))) }
    ensures cause { IfErr result (ReadCause (text_wanted limit (option_copied name.entry))
        (S.shown store.old) (S.shown store.new)) }
    ensures reads { ReadsAll (text_wanted limit (option_copied name.entry)) (S.shown store.old) (S.shown store.new) }
{
    match name {
        Some(name) => {
            let text = read_file(alloc, name, limit, store)?;
            Ok(Some(text))
        }
        None => Ok(None),
    }
}

/// The devices that a text names, which lie outside the map; none without a text.
pub fn devices_given(
    alloc: Global,
    text: &Option<Vec<u8>>,
    map: MemMap,
) -> Result<Devices, DevicesFault>
    ensures ok { IfOk result (λ devices. lines_given map (text_held text.now) ≡ Ok devices) }
    ensures err { IfErr result (λ fault.
        (fault ≡ DevicesFault.OutOfMemory) ⊎ (lines_given map (text_held text.now) ≡ Err fault)) }
{
    match text {
        Some(text) => read_devices(alloc, text.as_slice(), map),
        None => Ok(Devices::new(alloc)),
    }
}
