// The export that loads a table of demand limits (02, W5).
ghost use Rattle.std.specs.Prelude.{◌≡◌};
ghost use Rattle.rules.specs.Limits.{load_answer};
ghost use Rattle.base.specs.Refusals.{number_code};

use rules::limits;

// The limit, or 100,000,000 plus the refusal's number.
pub fn sawmauve_limit(table: &[u32], kind: u32) -> u32
    ensures { result ≡ number_code (load_answer table.now kind) }
{
    base::number_code(limits::load(table, kind))
}
