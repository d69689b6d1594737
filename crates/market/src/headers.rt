// The records 100 and 200.
ghost use Rattle.std.specs.Prelude.{◌≡◌, ◌++◌, length};
ghost use Rattle.market.specs.Fields.{field, lent};
ghost use Rattle.market.specs.Records.{record100, record200};
ghost use Rattle.base.specs.Text.{ascii};
ghost use Rattle.line.specs.Inner.Writing.{Added};

use crate::Texts;
use crate::writing::{put_field, put_number};
use line::writing::put_text;

// 100,NEM12,DateTime,FromParticipant,ToParticipant
pub fn put_100(out: &mut [u8], at: usize, texts: &Texts) -> usize
    requires { length texts.now.created.now ≡ 14 }
    ensures { let t = lent texts.now in
        Added out.old at out.new result (record100 t.created t.from t.to) }
{
    let minutes = 12;
    let head = put_text(out, at, b"100,NEM12");
    let time = put_field(out, head, &texts.created[..minutes]);
    let sender = put_field(out, time, texts.from);
    let receiver = put_field(out, sender, texts.to);
    put_text(out, receiver, b"\r\n")
}

// 200,NMI,NMIConfiguration,RegisterID,NMISuffix
fn put_meter(out: &mut [u8], at: usize, texts: &Texts) -> usize
    ensures { let t = lent texts.now in
        let text = ascii "200" ++ (field t.identifier ++ (field t.configuration ++ (field t.register ++ field t.suffix))) in
        Added out.old at out.new result text }
{
    let code = put_text(out, at, b"200");
    let meter = put_field(out, code, texts.identifier);
    let configured = put_field(out, meter, texts.configuration);
    let registered = put_field(out, configured, texts.register);
    put_field(out, registered, texts.suffix)
}

// The record 200 from `put_meter` on: MDMDataStreamIdentifier,MeterSerialNumber,UOM,IntervalLength,NextScheduledReadDate
pub fn put_200(out: &mut [u8], at: usize, texts: &Texts, interval: u32) -> usize
    ensures { let t = lent texts.now in
        let text = record200 t.identifier t.configuration t.register t.suffix t.stream t.serial interval t.next_read in
        Added out.old at out.new result text }
{
    let meter = put_meter(out, at, texts);
    let streamed = put_field(out, meter, texts.stream);
    let numbered = put_field(out, streamed, texts.serial);
    let unit = put_text(out, numbered, b",kWh");
    let length = put_number(out, unit, interval as u64);
    let read = put_field(out, length, texts.next_read);
    put_text(out, read, b"\r\n")
}
