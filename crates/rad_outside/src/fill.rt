// What a crash leaves where it need not leave what was written.

/// What each range holds after a crash that was written since the last sync that succeeded.
#[derive(Clone, Copy, Debug, PartialEq, Eq)]
pub enum Fill {
    /// What it held at that sync. Bytes past the old end are not there.
    Old,
    /// What was written there last. A write that failed has written its first half.
    New,
    /// This byte, in all of the range. Between the old end and a range past it stand zeros.
    Byte(u8),
}
