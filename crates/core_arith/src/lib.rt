// Arithmetic on registers alone (000 1.11), on rules::Core: one word, part words, two words. Mirrors the sections on
// arithmetic of rules/specs/Stack.antt, and OverflowCheck of Core.antt.
#![tactic(auto)]

pub mod signed; // signed numbers, OverflowCheck
pub mod word; // one word: adc, add, sub, mul, div, rem, gt, diff, sum, prod
pub mod partword; // part words: xword, cword
pub mod long_sums; // two words: ladd, lsub, lsum, ldiff
pub mod long; // two words: lmul, ldiv, norm, lshl, lshr, xdbl, csngl
