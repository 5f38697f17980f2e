ghost use Rattle.std.specs.Prelude.{◌≡◌, ℕ, List, length};

/// A value that represents lists of elements. Contracts see the length of the lists and their last
/// element.
pub trait Value: Drop {
    /// The type of the elements. No value of it exists at run time.
    type Element;

    ghost last: { Self → Self.Element };

    ghost stands: { Self → List Self.Element → Type 0 };

    ghost places: { Self → ℕ };

    /// The length of the lists.
    fn count(&self) -> u32
        ensures { result ≡ places self.now };

    ghost counts: { (x : Self) (xs : List Self.Element) → stands x xs → length xs ≡ places x };
}
