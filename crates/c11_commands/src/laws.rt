//! The law of what is due: an empty function whose contract is the law.
ghost use Rattle.c11_commands.specs.Laws.{OneIsDue};

use c11_accepts::laws::{not_both, one_program, one_refusal};
use c11_campaign::laws::one_summary;
use c11_run::laws::one_run_is_one;

/// For the same words and the same text of a source one status and one text are due at most, whatever workers did.
pub fn one_is_due()
    ensures { OneIsDue }
{
    one_program();
    one_refusal();
    not_both();
    one_run_is_one();
    one_summary();
}
