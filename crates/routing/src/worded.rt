// The turn rule of a word, as a turn rule.
ghost use Rattle.routing.specs.Choices.{rule_charge};
ghost use Rattle.routing.specs.WordedRuleLemmas.{bound};
ghost use Rattle.std.proofs.Common.{rules};

use crate::choice::RuleWord;
use plan::Drawing;
use rules::{Ambiguity, Slots, TurnRule, Turns};

/// A word charges what the rule that it names charges. Its largest charge is that of slots, the largest of the three.
impl TurnRule for RuleWord {
    const MOST: u32 = 21;

    ghost MOST = { 21 };

    ghost charge = { λ word p e f. rule_charge word p e f };

    ghost bounded = { λ word p e f s. bound word p e f s };

    ghost small = { Prim.search rules };

    ghost idle = { Prim.search rules };

    fn charge(&self, drawing: &Drawing<'_>, from: u32, to: u32) -> u32 {
        match self {
            RuleWord::Slots => Slots.charge(drawing, from, to),
            RuleWord::Ambiguity => Ambiguity.charge(drawing, from, to),
            RuleWord::Turns => Turns.charge(drawing, from, to),
        }
    }
}
