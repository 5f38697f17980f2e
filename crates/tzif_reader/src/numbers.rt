ghost use Rattle.std.specs.Prelude.{◌≡◌, ◌+◌, ◌≤◌, length};
ghost use Rattle.tzif_reader.specs.Cut.{piece, unsigned_at, short_at, long_at};

/// The `size` bytes from a byte offset on.
pub fn piece(bytes: &[u8], place: usize, size: usize) -> &[u8]
    requires { place + size ≤ length bytes.now }
    ensures value { result.now ≡ piece place size bytes.now }
    ensures len { length result.now ≡ size }
{
    let (_, rest) = bytes.split_at(place);
    let (prefix, _) = rest.split_at(size);
    prefix
}

/// The unsigned big-endian 32-bit number at a byte offset.
#[tactic(auto, unfolding(crate::specs::Cut::unsigned_at))]
pub fn unsigned_at(bytes: &[u8], place: usize) -> u32
    requires { place + 4 ≤ length bytes.now }
    ensures { result ≡ unsigned_at place bytes.now }
{
    let number = piece(bytes, place, 4);
    u32::from_be_bytes([number[0], number[1], number[2], number[3]])
}

/// The signed big-endian 32-bit number at a byte offset.
#[tactic(auto, unfolding(crate::specs::Cut::short_at))]
pub fn short_at(bytes: &[u8], place: usize) -> i32
    requires { place + 4 ≤ length bytes.now }
    ensures { result ≡ short_at place bytes.now }
{
    let number = piece(bytes, place, 4);
    i32::from_be_bytes([number[0], number[1], number[2], number[3]])
}

/// The signed big-endian 64-bit number at a byte offset.
#[tactic(auto, unfolding(crate::specs::Cut::long_at))]
pub fn long_at(bytes: &[u8], place: usize) -> i64
    requires { place + 8 ≤ length bytes.now }
    ensures { result ≡ long_at place bytes.now }
{
    let number = piece(bytes, place, 8);
    i64::from_be_bytes([
        number[0], number[1], number[2], number[3], number[4], number[5], number[6], number[7],
    ])
}
