// The conversions for the chargers' host (02, W9).
ghost use Rattle.std.specs.Prelude.{◌≡◌};
ghost use Rattle.base.specs.Refusals.{code_of, number_code};
ghost use Rattle.dial.specs.Dial.{pack_answer, pack_after, unpack_answer};

#[unsafe(no_mangle)]
pub extern "C" fn sawmauve_pack(reading: u32, bytes: &mut [u8]) -> u32
    ensures { (result ≡ code_of (pack_answer reading bytes.old))
        × (bytes.new ≡ pack_after reading bytes.old) }
{
    host::chargers::sawmauve_pack(reading, bytes)
}

#[unsafe(no_mangle)]
pub extern "C" fn sawmauve_unpack(bytes: &[u8]) -> u32
    ensures { result ≡ number_code (unpack_answer bytes.now) }
{
    host::chargers::sawmauve_unpack(bytes)
}
