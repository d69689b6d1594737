// A file's line.
ghost use Rattle.std.specs.Prelude.{◌≡◌};
ghost use Rattle.base.specs.Refusals.{length_code};
ghost use Rattle.line.specs.Line.{line_answer, line_after};

#[unsafe(no_mangle)]
pub extern "C" fn sawmauve_line(file: &[u8], out: &mut [u8]) -> u64
    ensures { (result ≡ length_code (line_answer file.now out.old))
        × (out.new ≡ line_after file.now out.old) }
{
    questions::lines::sawmauve_line(file, out)
}
