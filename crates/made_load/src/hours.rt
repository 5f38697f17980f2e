ghost use Rattle.std.specs.Prelude.{◌≡◌, ◌<◌, ◌++◌, ◌∷◌, [], IfOk};
ghost use Rattle.made_load.specs.Releases as releases;

use std::alloc::Global;
use td_base::{Bytes, NoMemory, put_decimal};
use tzif_reader::{Plan, slim};

/// The seconds of an hour.
const SECONDS: u32 = 3_600;

/// A number below 100 in two digits.
pub fn two_digits(n: u32) -> [u8; 2]
    requires { n < 100 }
    ensures { result ≡ releases.two_digit_text n }
{
    [b'0' + (n / 10) as u8, b'0' + (n % 10) as u8]
}

/// The TZif file of a zone that is always this number of hours east of UTC (RFC 9636).
#[tactic(auto, unfolding(crate::specs::Releases::hour_file))]
pub fn hour_file(alloc: Global, hour: u32) -> Result<Bytes, NoMemory>
    requires { hour < 24 }
    ensures { IfOk result (λ file. file ≡ releases.hour_file hour) }
{
    let name = hour_name(alloc, hour)?;
    let footer = hour_footer(alloc, &name, hour)?;
    let designations = ended_name(alloc, &name)?;
    slim(
        alloc,
        &Plan {
            times: &[],
            numbers: &[],
            types: &[((hour * SECONDS) as i32, 0, 0)],
            designations: designations.as_slice(),
            leaps: &[],
            standard: &[],
            ut: &[],
            footer: footer.as_slice(),
        },
    )
}

/// The name of the time of an hour, such as `+05`.
fn hour_name(alloc: Global, hour: u32) -> Result<Bytes, NoMemory>
    requires { hour < 24 }
    ensures { IfOk result (λ name. name ≡ releases.hour_name hour) }
{
    let mut name = Bytes::from_slice(alloc, b"+")?;
    name.append(&two_digits(hour))?;
    Ok(name)
}

/// A name with the zero byte that ends it among designations.
fn ended_name(alloc: Global, name: &Bytes) -> Result<Bytes, NoMemory>
    ensures { IfOk result (λ ended. ended ≡ name.now ++ 0 ∷ []) }
{
    let mut ended = name.clone_in(alloc)?;
    ended.push(0)?;
    Ok(ended)
}

/// The TZ string of a zone at this hour with this name (POSIX, section 8.3).
#[tactic(auto, unfolding(crate::specs::Releases::hour_footer))]
fn hour_footer(alloc: Global, name: &Bytes, hour: u32) -> Result<Bytes, NoMemory>
    requires { name.now ≡ releases.hour_name hour }
    ensures { IfOk result (λ footer. footer ≡ releases.hour_footer hour) }
{
    let mut footer = Bytes::from_slice(alloc, b"<")?;
    footer.append(name.as_slice())?;
    footer.append(b">-")?;
    put_decimal(&mut footer, hour as u64)?;
    Ok(footer)
}
