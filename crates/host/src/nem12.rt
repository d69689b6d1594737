// The export of a file to the market (02, W8).
ghost use Rattle.std.specs.Prelude.{◌≡◌};
ghost use Rattle.base.specs.Refusals.{length_code};
ghost use Rattle.market.specs.Fields.{lent_texts};
ghost use Rattle.market.specs.Export.{export_answer, export_after};
ghost use Rattle.host.specs.Market.{codes_of};

use market::{Codes, Texts};

fn codes_of(two: u32, three: u32, five: u32, eighteen: u32, nineteen: u32) -> Codes
    ensures { result ≡ codes_of two three five eighteen nineteen }
{
    Codes {
        two,
        three,
        five,
        eighteen,
        nineteen,
    }
}

pub fn sawmauve_nem12<'a>(
    file: &[u8],
    identifier: &'a [u8],
    from: &'a [u8],
    to: &'a [u8],
    configuration: &'a [u8],
    register: &'a [u8],
    suffix: &'a [u8],
    stream: &'a [u8],
    serial: &'a [u8],
    next_read: &'a [u8],
    reason: &'a [u8],
    created: &'a [u8],
    two: u32,
    three: u32,
    five: u32,
    eighteen: u32,
    nineteen: u32,
    out: &mut [u8],
) -> u64
    ensures { let given = lent_texts identifier.now from.now to.now configuration.now register.now suffix.now
        stream.now serial.now next_read.now reason.now created.now in
        let codes = codes_of two three five eighteen nineteen in
        (result ≡ length_code (export_answer file.now given codes out.old))
        × (out.new ≡ export_after file.now given codes out.old) }
{
    let codes = codes_of(two, three, five, eighteen, nineteen);
    let texts = Texts {
        identifier,
        from,
        to,
        configuration,
        register,
        suffix,
        stream,
        serial,
        next_read,
        reason,
        created,
    };
    base::length_code(market::nem12(file, &texts, codes, out))
}
