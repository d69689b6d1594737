// A file to the market (02, W8).
ghost use Rattle.std.specs.Prelude.{◌≡◌};
ghost use Rattle.base.specs.Refusals.{length_code};
ghost use Rattle.market.specs.Fields.{lent_texts};
ghost use Rattle.market.specs.Export.{export_answer, export_after};
ghost use Rattle.host.specs.Market.{codes_of};

#[unsafe(no_mangle)]
pub extern "C" fn sawmauve_nem12(
    file: &[u8],
    identifier: &[u8],
    from: &[u8],
    to: &[u8],
    configuration: &[u8],
    register: &[u8],
    suffix: &[u8],
    stream: &[u8],
    serial: &[u8],
    next_read: &[u8],
    reason: &[u8],
    created: &[u8],
    two: u32,
    three: u32,
    five: u32,
    eighteen: u32,
    nineteen: u32,
    out: &mut [u8],
) -> u64
    ensures { let given = lent_texts identifier.now from.now to.now configuration.now register.now suffix.now
        stream.now serial.now next_read.now reason.now created.now in
        let codes = codes_of two three five eighteen nineteen in
        (result ≡ length_code (export_answer file.now given codes out.old))
        × (out.new ≡ export_after file.now given codes out.old) }
{
    host::nem12::sawmauve_nem12(
        file,
        identifier,
        from,
        to,
        configuration,
        register,
        suffix,
        stream,
        serial,
        next_read,
        reason,
        created,
        two,
        three,
        five,
        eighteen,
        nineteen,
        out,
    )
}
