ghost use Rattle.std.specs.Prelude.{◌≡◌, ◌≢◌, ℕ, ◌++◌, ◌<◌, ◌^◌, length, take, decimal, OnOk};
ghost use Rattle.std.specs.Prelude.{OnErr, IfSome, IsNone};
ghost use Rattle.td_base.specs.Sized.{sized};
ghost use Rattle.hex.specs.Hex.{encode_lower};

use crate::{Bytes, NoMemory};
use itoa::Buffer;
use std::str;

/// Appends the number in decimal, without a leading zero. When out of memory, nothing is appended.
pub fn put_decimal(out: &mut Bytes, n: u64) -> Result<(), NoMemory>
    ensures ok { OnOk result (out.new ≡ out.old ++ decimal n) }
    ensures err { OnErr result (out.new ≡ out.old) }
{
    let mut buffer = Buffer::new();
    out.append(buffer.format(n).as_bytes())
}

/// Reads a decimal number without a sign and without a leading zero. `None` for any other text, and
/// for a number that does not fit 64 bits.
pub fn read_decimal(text: &[u8]) -> Option<u64>
    ensures some { IfSome result (λ n. text.now ≡ decimal n) }
    ensures none { IsNone result → (n : ℕ) → n < 2 ^ 64 → text.now ≢ decimal n }
{
    let Ok(digits) = str::from_utf8(text) else {
        return None;
    };
    let Ok(n) = digits.parse::<u64>() else {
        return None;
    };
    let mut buffer = Buffer::new();
    if buffer.format(n).as_bytes() == text {
        Some(n)
    } else {
        None
    }
}

/// Appends two lower-case hex digits for each byte, the high half first. When out of memory,
/// nothing is appended.
pub fn put_hex(out: &mut Bytes, bytes: &[u8]) -> Result<(), NoMemory>
    ensures ok { OnOk result (out.new ≡ out.old ++ encode_lower bytes.now) }
    ensures err { OnErr result (out.new ≡ out.old) }
{
    let start = out.len();
    if let Err(error) = append_hex(out, bytes) {
        out.truncate(start);
        return Err(error);
    }
    Ok(())
}

#[tactic(auto, unfolding(hex::specs::Hex::encode_with))]
/// Appends the hex digits byte by byte. When out of memory, the digits of earlier bytes stay.
fn append_hex(out: &mut Bytes, bytes: &[u8]) -> Result<(), NoMemory>
    ensures ok { OnOk result (out.new ≡ out.old ++ encode_lower bytes.now) }
    ensures kept { take (length out.old) out.new ≡ out.old }
{
    for byte in bytes {
        let mut pair = [0; 2];
        let _ = hex::encode_to_slice([*byte], &mut pair);
        out.append(&pair)?;
    }
    Ok(())
}

/// Appends the number of bytes as a big-endian 32-bit number, then the bytes. When out of memory,
/// nothing is appended.
pub fn put_sized(out: &mut Bytes, bytes: &[u8]) -> Result<(), NoMemory>
    requires { length bytes.now < 2 ^ 32 }
    ensures ok { OnOk result (out.new ≡ out.old ++ sized bytes.now) }
    ensures err { OnErr result (out.new ≡ out.old) }
{
    let start = out.len();
    out.append(&(bytes.len() as u32).to_be_bytes())?;
    if let Err(error) = out.append(bytes) {
        out.truncate(start);
        return Err(error);
    }
    Ok(())
}
