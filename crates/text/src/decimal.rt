// Decimal numbers, with no leading zero save 0.

ghost use Rattle.std.specs.Prelude.{◌≡◌, length};
ghost use Rattle.text.specs.Decimal.{parse_number, print_number, well_led};

// The number that a field of a column of 32 bits says, unless it says none or one above the limit. It is `read_wide` for such columns:
// one function for both would ask of a type what its numbers are.
pub fn read_number(field: &[u8], limit: u32) -> Option<u32>
    ensures { result ≡ parse_number limit field.now }
{
    u32::try_from(read_wide(field, u64::from(limit))?).ok()
}

// The same for a number of 64 bits. A digit is added only where the value then has 64 bits, so that none wraps however many
// digits there are.
pub fn read_wide(field: &[u8], limit: u64) -> Option<u64>
    ensures { result ≡ parse_number limit field.now }
{
    if !well_led(field) {
        return None;
    }
    let mut v: u64 = 0;
    for b in field {
        if !b.is_ascii_digit() {
            return None;
        }
        let digit = u64::from(*b - b'0');
        v = v.checked_mul(10)?.checked_add(digit)?;
        if limit < v {
            return None;
        }
    }
    Some(v)
}

// Not empty, and no 0 before another byte.
fn well_led(field: &[u8]) -> bool
    ensures { result ≡ well_led field.now }
{
    match field {
        [] => false,
        [b'0', _, ..] => false,
        _ => true,
    }
}

// How many bytes n takes in decimal. The activities of a net file have one digit or two. Tried: by a logarithm of each the width of a net
// with large sets takes twice as long to find.
pub fn number_width(n: u64) -> usize
    ensures { result ≡ length (print_number n) }
{
    if n < 10 {
        return 1;
    }
    if n < 100 {
        return 2;
    }
    n.ilog10() as usize + 1
}
