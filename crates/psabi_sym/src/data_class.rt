// Classes of data.

/// Where in memory a section of data stands, or a common symbol: the classes stand in this order.
#[derive(Clone, Copy, PartialEq, Eq)]
pub enum DataClass {
    /// The program doesn't write to it. It isn't protected, either.
    ReadOnly,
    Data,
    /// `.sdata` and names that begin with `.sdata.`, near the global pointer.
    SmallData,
    /// `.sbss` and names that begin with `.sbss.`.
    SmallZero,
    Zero,
    Common,
}
