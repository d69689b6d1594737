// A table of demand limits loaded (02, W5).
ghost use Rattle.std.specs.Prelude.{◌≡◌};
ghost use Rattle.rules.specs.Limits.{load_answer};
ghost use Rattle.base.specs.Refusals.{number_code};

#[unsafe(no_mangle)]
pub extern "C" fn sawmauve_limit(table: &[u32], kind: u32) -> u32
    ensures { result ≡ number_code (load_answer table.now kind) }
{
    host::limits::sawmauve_limit(table, kind)
}
