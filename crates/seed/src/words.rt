// A word of 64 bits as two of 32.
ghost use Rattle.std.specs.Prelude.{◌≡◌, ◌+◌, ◌*◌, ◌/◌, ◌%◌, ◌^◌};

pub(crate) fn split(x: u64) -> (u32, u32)
    ensures high { result.0 ≡ x / 2 ^ 32 }
    ensures low { result.1 ≡ x % 2 ^ 32 }
{
    ((x >> 32) as u32, (x % 0x1_0000_0000) as u32)
}

pub(crate) fn join(high: u32, low: u32) -> u64
    ensures { result ≡ high * 2 ^ 32 + low }
{
    u64::from(high) * 0x1_0000_0000 + u64::from(low)
}
