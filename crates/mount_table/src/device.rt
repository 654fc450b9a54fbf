//! The numbers of a device.
ghost use Rattle.std.specs.Prelude.{◌≡◌, position};
ghost use Rattle.mount_table.specs.Part.{digits_number};
ghost use Rattle.mount_table.specs.Device.{has_leading_zero, decimal_number, is_colon, device_numbers as numbers, packed_device};

/// The number that digits write, where it has at most 32 bits.
fn read_digits(digits: &[u8]) -> Option<u32>
    ensures { result ≡ digits_number digits.now }
{
    let mut value = 0u64;
    for byte in digits {
        if !byte.is_ascii_digit() {
            return None;
        }
        value = value * 10 + u64::from(*byte - b'0');
        if value > u64::from(u32::MAX) {
            return None;
        }
    }
    Some(value as u32)
}

/// Whether a zero stands before other bytes.
fn has_leading_zero(text: &[u8]) -> bool
    ensures { result ≡ has_leading_zero text.now }
{
    text.len() > 1 && text[0] == b'0'
}

/// The decimal number, without a sign or a leading zero, where it has at most 32 bits.
fn read_decimal(text: &[u8]) -> Option<u32>
    ensures { result ≡ decimal_number text.now }
{
    if text.is_empty() {
        return None;
    }
    if has_leading_zero(text) {
        return None;
    }
    read_digits(text)
}

/// Where the first colon stands.
fn colon_place(field: &[u8]) -> Option<usize>
    ensures { result ≡ position is_colon field.now }
{
    field.iter().position(|byte| *byte == b':')
}

/// The major and the minor number, with one `:` between.
pub(crate) fn read_device(field: &[u8]) -> Option<(u32, u32)>
    ensures { result ≡ numbers field.now }
{
    let Some(colon) = colon_place(field) else {
        return None;
    };
    let Some(major) = read_decimal(&field[..colon]) else {
        return None;
    };
    let Some(minor) = read_decimal(&field[colon + 1..]) else {
        return None;
    };
    Some((major, minor))
}

/// Both numbers in one of 32 bits, or 0 where the major one has more than 12 bits or the minor one more than 20.
#[tactic(auto, unfolding(crate::specs::Device::packed_device))]
pub(crate) fn pack_device(major: u32, minor: u32) -> u32
    ensures { result ≡ packed_device major minor }
{
    if major <= 4095 && minor <= 1_048_575 {
        major * 1_048_576 + minor
    } else {
        0
    }
}
