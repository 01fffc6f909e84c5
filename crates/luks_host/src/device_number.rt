//! The numbers of devices, as Linux encodes them.

ghost use Rattle.luks_host.specs.DeviceNumbers.{HasParts};

/// The two parts of a device's number.
#[derive(Clone, Copy, Debug, PartialEq, Eq)]
pub struct DeviceParts {
    pub major: u64,
    pub minor: u64,
}

/// The parts that `makedev` encodes as this number.
pub fn device_parts(number: u64) -> DeviceParts
    ensures { HasParts number result.major result.minor }
{
    let major_low = (number >> 8) % 0x1000;
    let major_high = number >> 44;
    let minor_low = number % 0x100;
    let minor_high = (number >> 20) % 0x100_0000;
    DeviceParts {
        major: major_high * 0x1000 + major_low,
        minor: minor_high * 0x100 + minor_low,
    }
}
