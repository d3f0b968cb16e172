// Part words (000 1.11): A is unsigned, B signed (DECISIONS 9).
ghost use Rattle.std.specs.Prelude.{◌≡◌};
ghost use Rattle.rules.specs.Stack as stack;

use crate::signed::{signed, word_of};
use core_ops::errors::error_if;
use core_ops::stack::{pop, result};
use rules::Core;

#[tactic(auto, unfolding(rules::specs::Stack::xword))]
pub fn xword(s: Core) -> Core
    ensures { result ≡ stack.xword s }
{
    if signed(s.b) < i64::from(s.a) {
        result(s.b, s)
    } else {
        result(word_of(i128::from(signed(s.b) - 2 * i64::from(s.a))), s)
    }
}

#[tactic(auto, unfolding(rules::specs::Stack::cword))]
pub fn cword(s: Core) -> Core
    ensures { result ≡ stack.cword s }
{
    error_if(
        i64::from(s.a) <= signed(s.b) || signed(s.b) < -i64::from(s.a),
        pop(s),
    )
}
