// A line of a text of devices, as it is kept.

/// A line: the first address and the size of a device's range; the control and status registers; that sp isn't set at
/// the start; an address whose stored bytes appear on standard output; bytes that devices answer; or the bytes that
/// they answer from there on.
#[derive(Drop)]
pub enum KeptLine {
    Range { at: u32, size: u32 },
    Registers,
    Reset,
    Output(u32),
    Answer(Vec<u8>),
    Then(Vec<u8>),
}
