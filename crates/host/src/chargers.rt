// The conversions for the chargers' host (02, W9), which is written in C.
ghost use Rattle.std.specs.Prelude.{◌≡◌};
ghost use Rattle.base.specs.Refusals.{code_of, number_code};
ghost use Rattle.dial.specs.Dial.{pack_answer, pack_after, unpack_answer};

// 0, or the refusal's number.
pub fn sawmauve_pack(reading: u32, bytes: &mut [u8]) -> u32
    ensures { (result ≡ code_of (pack_answer reading bytes.old))
        × (bytes.new ≡ pack_after reading bytes.old) }
{
    base::code_of(dial::pack(reading, bytes))
}

// The reading, or 100,000,000 plus the refusal's number.
pub fn sawmauve_unpack(bytes: &[u8]) -> u32
    ensures { result ≡ number_code (unpack_answer bytes.now) }
{
    base::number_code(dial::unpack(bytes))
}
