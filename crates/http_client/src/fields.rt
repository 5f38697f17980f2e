ghost use Rattle.std.specs.Prelude.{◌≡◌, length, map, All, option_copied};
ghost use Rattle.std.specs.Str.{str_eq_ignore_ascii_case};
ghost use Rattle.httparse.specs.Spans.{IsHeaderWithin, header_bytes};
ghost use Rattle.http_client.specs.Fields.{first_of};
ghost use Rattle.td_base.specs.Texts.{field_values};

use httparse::spans::HeaderSpan;
use td_base::texts::is_same;

/// Whether the field has this name, ignoring case.
fn is_named(buf: &[u8], field: HeaderSpan, name: &[u8]) -> bool
    requires { IsHeaderWithin (length buf.now) field }
    ensures { result ≡ str_eq_ignore_ascii_case (header_bytes buf.now field).0 name.now }
{
    is_same(field.name.of(buf), name)
}

/// How many fields have this name.
pub fn count_named(buf: &[u8], fields: &[HeaderSpan], name: &[u8]) -> usize
    requires { All (IsHeaderWithin (length buf.now)) fields.now }
    ensures { result ≡ length (field_values name.now (map (header_bytes buf.now) fields.now)) }
{
    let mut count = 0;
    for field in fields {
        if is_named(buf, *field, name) {
            count += 1;
        }
    }
    count
}

/// The value of the first field with this name.
pub fn first_named<'a>(buf: &'a [u8], fields: &[HeaderSpan], name: &[u8]) -> Option<&'a [u8]>
    requires { All (IsHeaderWithin (length buf.now)) fields.now }
    ensures { option_copied result
        ≡ first_of (field_values name.now (map (header_bytes buf.now) fields.now)) }
{
    for field in fields {
        if is_named(buf, *field, name) {
            return Some(field.value.of(buf));
        }
    }
    None
}
