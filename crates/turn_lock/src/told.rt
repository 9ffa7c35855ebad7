// What a value under the lock tells.
ghost use Rattle.std.specs.Prelude.{◌≡◌, ℕ, ◌<◌, ◌^◌, List, length};

/// A value that stands for a list of entries, and for constants beside it that no turn changes.
pub trait Told {
    /// An entry of the list.
    type Entry;

    /// Plain data that stays as it is from the first turn to the last. A clause reads it, and no
    /// value of it need ever be made.
    type Constants;

    // The entries, the oldest first.
    ghost list: { Self → List Self.Entry };

    // The number of the caller who added an entry; 0 for those that were there at the beginning.
    ghost caller: { Self.Entry → ℕ };

    ghost constants: { Self → Self.Constants };

    /// The length of the list, which is less than 2^63. It takes no memory.
    fn count(&self) -> u64
        ensures counted { result ≡ length (list self.now) }
        ensures short { length (list self.now) < 2 ^ 63 };
}
