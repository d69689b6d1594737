// A slot table's strips (02, W13).
ghost use Rattle.std.specs.Prelude.{◌≡◌, length};
ghost use Rattle.base.specs.Refusals.{code_of};
ghost use Rattle.strips.specs.Strips.{laid_answer, to_strips_after, from_strips_after};

#[unsafe(no_mangle)]
pub extern "C" fn sawmauve_to_strips(interval: u32, table: &[u8], out: &mut [u8]) -> u32
    ensures { (result ≡ code_of (laid_answer interval (length table.now) (length out.old)))
        × (out.new ≡ to_strips_after interval table.now out.old) }
{
    host::storage::sawmauve_to_strips(interval, table, out)
}

#[unsafe(no_mangle)]
pub extern "C" fn sawmauve_from_strips(interval: u32, strips: &[u8], out: &mut [u8]) -> u32
    ensures { (result ≡ code_of (laid_answer interval (length strips.now) (length out.old)))
        × (out.new ≡ from_strips_after interval strips.now out.old) }
{
    host::storage::sawmauve_from_strips(interval, strips, out)
}
