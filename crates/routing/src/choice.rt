// Turn rules and kinds of cost by their words.

/// The turn rule that a question names.
#[derive(Clone, Copy, PartialEq, Eq, Debug)]
pub enum RuleWord {
    /// A step is weighed by the slots of its instruction.
    Slots,
    /// A step is charged for the other steps that sound the same.
    Ambiguity,
    /// Every step that is not straight is charged 1.
    Turns,
}

/// The kind of cost that a question names.
#[derive(Clone, Copy, PartialEq, Eq, Debug)]
pub enum KindWord {
    /// The lengths.
    Distance,
    /// The charges before the lengths.
    Ranked,
    /// The lengths once and the charges six times.
    Weighted,
    /// The tally of the charges before the lengths.
    Tally,
}
